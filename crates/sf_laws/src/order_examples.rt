//! The entries of a session, its front, and the blocks that a script may need.
ghost use Rattle.std.specs.Prelude.{◌≡◌, [], ◌∷◌, map, codes, replicate, true, false};
ghost use Rattle.sf_types.specs.declared.call.Call.TheVariants as call;
ghost use Rattle.sf_types.specs.Orders.EnoughSpace.{need_of, may_repeat};
ghost use Rattle.sf_types.specs.Orders.Fronts.{IsFront, entries_of};
ghost use Rattle.sf_laws.specs.Histories.{ends_in, promises_in};

/// A session's front is a front part of the history that ends anywhere behind its own entries, which are all there in order.
pub fn fronts()
    ensures own { entries_of 2 (ends_in 1 call.Commit ∷ promises_in 2 call.Commit ∷ ends_in 12 call.End ∷ ends_in 2 call.Commit ∷ []) ≡ promises_in 2 call.Commit ∷ ends_in 2 call.Commit ∷ [] }
    ensures front { IsFront (ends_in 1 call.Commit ∷ ends_in 2 call.End ∷ ends_in 1 call.End ∷ []) 2 (ends_in 2 call.End ∷ []) (ends_in 1 call.Commit ∷ ends_in 2 call.End ∷ []) }
    ensures not_short { IsFront (ends_in 1 call.Commit ∷ ends_in 2 call.End ∷ []) 2 (ends_in 2 call.End ∷ []) (ends_in 1 call.Commit ∷ []) → ⊥ }
    ensures not_other { IsFront (ends_in 1 call.Commit ∷ ends_in 2 call.End ∷ []) 2 (ends_in 2 call.End ∷ []) (ends_in 2 call.End ∷ []) → ⊥ }
{}

/// A writing call may need the blocks of its payload and three more, any other call none.
pub fn needs()
    ensures writing { map need_of (call.Write (codes "p") 1 (replicate 512 65) ∷ call.WriteAppend (codes "p") (replicate 513 65) ∷ call.FragInsert (codes "p") 1 (codes "x") ∷ call.FragReplace (codes "p") 1 1 (codes "x") ∷ []) ≡ 4 ∷ 5 ∷ 4 ∷ 4 ∷ [] }
    ensures without_payload { map need_of (call.Erase (codes "p") 1 1 ∷ call.Trim (codes "p") 1 ∷ call.FragDelete (codes "p") 1 1 ∷ call.FragMove (codes "p") 1 1 1 ∷ call.SetOptions (codes "p") true ∷ []) ≡ 3 ∷ 3 ∷ 3 ∷ 3 ∷ 3 ∷ [] }
    ensures none { map need_of (call.Insert (codes "a") ∷ call.Instr (codes "p") (codes "x") 1 ∷ call.Commit ∷ []) ≡ 0 ∷ 0 ∷ 0 ∷ [] }
    ensures repeating { map may_repeat (call.Append (codes "p") (codes "q") ∷ call.Copy (codes "p") (codes "q") 1 1 1 ∷ call.RollbackTo (codes "s") ∷ call.Write (codes "p") 1 (codes "x") ∷ call.Rollback ∷ []) ≡ true ∷ true ∷ true ∷ false ∷ false ∷ [] }
{}
