//! Which refusal comes first where several hold, and the limits of locators and savepoints.
ghost use Rattle.std.specs.Prelude.{◌≡◌, [], ◌∷◌, map, codes, true};
ghost use Rattle.sf_types.specs.declared.call.Call.TheVariants as call;
ghost use Rattle.sf_types.specs.declared.reply.Fault.TheVariants as fault;
ghost use Rattle.sf_types.specs.declared.reply.Reply.TheVariants as reply;
ghost use Rattle.sf_laws.specs.RefusalExamples.{each_kind, row_is_gone, row_is_deleted, rows_are_locked, answered, refused, with_locators, clean, lost, with_savepoints};

/// UnknownLocator comes before Lost, whichever locator is named first, and before all that is said of the written one.
pub fn unknown_locators_come_first()
    ensures left { answered each_kind 1 (call.Compare (codes "u") (codes "l") 0 0 0) ≡ refused fault.UnknownLocator }
    ensures right { answered each_kind 1 (call.Compare (codes "l") (codes "u") 0 0 0) ≡ refused fault.UnknownLocator }
    ensures source { answered each_kind 1 (call.Append (codes "r") (codes "u")) ≡ refused fault.UnknownLocator }
    ensures written { answered each_kind 1 (call.Append (codes "u") (codes "l")) ≡ refused fault.UnknownLocator }
    ensures read { answered each_kind 1 (call.Read (codes "u") 0 0) ≡ refused fault.UnknownLocator }
    ensures free { answered each_kind 1 (call.Free (codes "u")) ≡ refused fault.UnknownLocator }
    ensures length { answered each_kind 1 (call.Length (codes "u")) ≡ refused fault.UnknownLocator }
{}

/// Lost comes before what is said of the written locator and before the arguments. A lost locator can be freed, and set anew.
pub fn lost_comes_next()
    ensures read { answered each_kind 1 (call.Read (codes "l") 0 0) ≡ refused fault.Lost }
    ensures length { answered each_kind 1 (call.Length (codes "l")) ≡ refused fault.Lost }
    ensures instr { answered each_kind 1 (call.Instr (codes "l") [] 0) ≡ refused fault.Lost }
    ensures compared { answered each_kind 1 (call.Compare (codes "s") (codes "l") 0 0 0) ≡ refused fault.Lost }
    ensures source { answered each_kind 1 (call.Copy (codes "r") (codes "l") 0 0 0) ≡ refused fault.Lost }
    ensures written { answered each_kind 1 (call.Write (codes "l") 0 []) ≡ refused fault.Lost }
    ensures assigned { answered each_kind 1 (call.Assign (codes "t") (codes "l")) ≡ refused fault.Lost }
    ensures assigned_to { answered each_kind 1 (call.Assign (codes "l") (codes "s")) ≡ reply.Done }
    ensures free { answered each_kind 1 (call.Free (codes "l")) ≡ reply.Done }
{}

/// Then come ReadOnly, SpansTransactions, RowNotLocked and NoSuchRow, in this order, before the arguments.
pub fn writing_is_refused_in_order()
    ensures read_only { answered each_kind 1 (call.Write (codes "r") 0 []) ≡ refused fault.ReadOnly }
    ensures spanning { answered each_kind 1 (call.Write (codes "p") 0 []) ≡ refused fault.SpansTransactions }
    ensures unlocked { answered each_kind 1 (call.Write (codes "s") 0 []) ≡ refused fault.RowNotLocked }
    ensures unlocked_and_gone { answered row_is_gone 1 (call.Write (codes "s") 0 []) ≡ refused fault.RowNotLocked }
    ensures gone { answered row_is_deleted 1 (call.Write (codes "s") 0 []) ≡ refused fault.NoSuchRow }
    ensures each { map (λ made. answered row_is_deleted 1 made) (
        call.WriteAppend (codes "s") [] ∷ call.Append (codes "s") (codes "s") ∷ call.Copy (codes "s") (codes "s") 0 0 0
        ∷ call.Erase (codes "s") 0 0 ∷ call.Trim (codes "s") 9 ∷ call.FragInsert (codes "s") 0 [] ∷ call.FragDelete (codes "s") 0 0
        ∷ call.FragMove (codes "s") 0 0 0 ∷ call.FragReplace (codes "s") 0 0 [] ∷ call.SetOptions (codes "s") true ∷ [])
        ≡ refused fault.NoSuchRow ∷ refused fault.NoSuchRow ∷ refused fault.NoSuchRow ∷ refused fault.NoSuchRow ∷ refused fault.NoSuchRow
        ∷ refused fault.NoSuchRow ∷ refused fault.NoSuchRow ∷ refused fault.NoSuchRow ∷ refused fault.NoSuchRow ∷ refused fault.NoSuchRow ∷ [] }
    ensures options { map (λ at. answered each_kind 1 (call.SetOptions at true)) (codes "u" ∷ codes "l" ∷ codes "r" ∷ codes "p" ∷ codes "s" ∷ [])
        ≡ refused fault.UnknownLocator ∷ refused fault.Lost ∷ refused fault.ReadOnly ∷ refused fault.SpansTransactions ∷ refused fault.RowNotLocked ∷ [] }
    ensures arguments { answered rows_are_locked 1 (call.Write (codes "s") 0 []) ≡ refused fault.ArgOutOfRange }
    ensures reading { answered row_is_gone 1 (call.Read (codes "s") 9 1) ≡ reply.Bytes (codes "ab") }
{}

/// Busy comes before Duplicate and NoSuchRow. Select asks for no lock. What a session locked itself is not busy for it.
pub fn row_calls_are_refused_in_order()
    ensures insert { answered rows_are_locked 2 (call.Insert (codes "a")) ≡ refused fault.Busy }
    ensures delete { answered rows_are_locked 2 (call.Delete (codes "c")) ≡ refused fault.Busy }
    ensures lock { answered rows_are_locked 2 (call.Lock (codes "q") (codes "c")) ≡ refused fault.Busy }
    ensures select { answered rows_are_locked 2 (call.Select (codes "q") (codes "c")) ≡ refused fault.NoSuchRow }
    ensures locked { answered rows_are_locked 2 (call.Select (codes "q") (codes "a")) ≡ reply.Done }
    ensures duplicate { answered rows_are_locked 1 (call.Insert (codes "c")) ≡ refused fault.Duplicate }
    ensures committed { answered rows_are_locked 2 (call.Insert (codes "b")) ≡ refused fault.Duplicate }
    ensures absent { answered rows_are_locked 1 (call.Delete (codes "d")) ≡ refused fault.NoSuchRow }
    ensures own { answered rows_are_locked 1 (call.Delete (codes "c")) ≡ reply.Done }
    ensures deleted { answered row_is_deleted 1 (call.Insert (codes "a")) ≡ reply.Done }
{}

/// SelectAsOf: FutureCommit past the number of commits, which is 3, TooOld below the floor, which is 3 too, and then NoSuchRow.
pub fn old_commits_are_refused_in_order()
    ensures commits { map (λ n. answered each_kind 1 (call.SelectAsOf (codes "t") (codes "a") n)) (0 ∷ 2 ∷ 3 ∷ 4 ∷ [])
        ≡ refused fault.TooOld ∷ refused fault.TooOld ∷ reply.Done ∷ refused fault.FutureCommit ∷ [] }
    ensures absent { map (λ n. answered each_kind 1 (call.SelectAsOf (codes "t") (codes "d") n)) (2 ∷ 3 ∷ 4 ∷ [])
        ≡ refused fault.TooOld ∷ refused fault.NoSuchRow ∷ refused fault.FutureCommit ∷ [] }
{}

/// A session has at most 256 locators. One more is refused before all else by row calls, and by Assign after what is said of the
/// source. A name that is there can always be set.
pub fn at_most_256_locators()
    ensures select { map (λ count. answered (with_locators count clean) 1 (call.Select (codes "t") (codes "a"))) (255 ∷ 256 ∷ [])
        ≡ reply.Done ∷ refused fault.TooManyLocators ∷ [] }
    ensures lock { map (λ count. answered (with_locators count clean) 1 (call.Lock (codes "t") (codes "a"))) (255 ∷ 256 ∷ [])
        ≡ reply.Done ∷ refused fault.TooManyLocators ∷ [] }
    ensures as_of { map (λ count. answered (with_locators count clean) 1 (call.SelectAsOf (codes "t") (codes "a") 3)) (255 ∷ 256 ∷ [])
        ≡ reply.Done ∷ refused fault.TooManyLocators ∷ [] }
    ensures assign { map (λ count. answered (with_locators count clean) 1 (call.Assign (codes "t") (codes "000"))) (255 ∷ 256 ∷ [])
        ≡ reply.Done ∷ refused fault.TooManyLocators ∷ [] }
    ensures there { map (λ made. answered (with_locators 256 clean) 1 made) (
        call.Select (codes "000") (codes "a") ∷ call.Lock (codes "255") (codes "a") ∷ call.SelectAsOf (codes "007") (codes "a") 3 ∷ call.Assign (codes "255") (codes "000") ∷ [])
        ≡ reply.Done ∷ reply.Done ∷ reply.Done ∷ reply.Done ∷ [] }
    ensures first { map (λ made. answered (with_locators 256 clean) 1 made) (
        call.Select (codes "t") (codes "d") ∷ call.Lock (codes "t") (codes "d") ∷ call.SelectAsOf (codes "t") (codes "d") 4 ∷ call.SelectAsOf (codes "t") (codes "d") 0 ∷ [])
        ≡ refused fault.TooManyLocators ∷ refused fault.TooManyLocators ∷ refused fault.TooManyLocators ∷ refused fault.TooManyLocators ∷ [] }
    ensures source_first { answered (with_locators 256 clean) 1 (call.Assign (codes "t") (codes "u")) ≡ refused fault.UnknownLocator }
    ensures lost_first { answered (with_locators 256 lost) 1 (call.Assign (codes "t") (codes "000")) ≡ refused fault.Lost }
{}

/// A session has at most 64 savepoints. A name that is there can always be set anew. RollbackTo asks for a savepoint of that name.
pub fn at_most_64_savepoints()
    ensures new { map (λ count. answered (with_savepoints count) 1 (call.Savepoint (codes "s"))) (0 ∷ 63 ∷ 64 ∷ [])
        ≡ reply.Done ∷ reply.Done ∷ refused fault.TooManySavepoints ∷ [] }
    ensures there { answered (with_savepoints 64) 1 (call.Savepoint (codes "063")) ≡ reply.Done }
    ensures back { map (λ name. answered (with_savepoints 64) 1 (call.RollbackTo name)) (codes "063" ∷ codes "064" ∷ [])
        ≡ reply.Done ∷ refused fault.NoSavepoint ∷ [] }
{}
