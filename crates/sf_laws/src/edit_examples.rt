//! Examples of edits.
ghost use Rattle.std.specs.Prelude.{◌≡◌, [], ◌∷◌, ◌++◌, codes};
ghost use Rattle.sf_types.specs.declared.reply.Reply.TheVariants as reply;
ghost use Rattle.sf_types.specs.declared.reply.Fault.TheVariants as fault;
ghost use Rattle.sf_types.specs.Limits.{standard_options};
ghost use Rattle.sf_types.specs.Values.Edits.{move};
ghost use Rattle.sf_laws.specs.Histories.{IsLegalAlone, replies_in};
ghost use Rattle.sf_laws.specs.EditExamples.{move_history, padding_history, erasing_history};

/// The part goes behind: the place is counted before the move.
pub fn move_behind()
    ensures edit { move (codes "abcdef") 2 1 5 ≡ codes "cdabef" }
    ensures legal { IsLegalAlone standard_options (move_history 2 1 5) }
    ensures replies { replies_in standard_options (move_history 2 1 5)
        ≡ reply.Done ∷ reply.Done ∷ reply.Done ∷ reply.Done ∷ reply.Bytes (codes "cdabef") ∷ [] }
{}

/// A move to the end of the part leaves the value.
pub fn move_to_its_own_end()
    ensures edit { move (codes "abcdef") 2 1 3 ≡ codes "abcdef" }
    ensures legal { IsLegalAlone standard_options (move_history 2 1 3) }
    ensures replies { replies_in standard_options (move_history 2 1 3)
        ≡ reply.Done ∷ reply.Done ∷ reply.Done ∷ reply.Done ∷ reply.Bytes (codes "abcdef") ∷ [] }
{}

/// A move to the place after the last byte.
pub fn move_to_the_end()
    ensures edit { move (codes "abcdef") 2 1 7 ≡ codes "cdefab" }
    ensures legal { IsLegalAlone standard_options (move_history 2 1 7) }
    ensures replies { replies_in standard_options (move_history 2 1 7)
        ≡ reply.Done ∷ reply.Done ∷ reply.Done ∷ reply.Done ∷ reply.Bytes (codes "cdefab") ∷ [] }
{}

/// A move past the place after the last byte is refused.
pub fn move_past_the_end()
    ensures legal { IsLegalAlone standard_options (move_history 2 1 8) }
    ensures replies { replies_in standard_options (move_history 2 1 8)
        ≡ reply.Done ∷ reply.Done ∷ reply.Done ∷ reply.Refused fault.ArgOutOfRange ∷ reply.Bytes (codes "abcdef") ∷ [] }
{}

/// The part goes to the front.
pub fn move_to_the_front()
    ensures edit { move (codes "abcdef") 2 5 1 ≡ codes "efabcd" }
    ensures legal { IsLegalAlone standard_options (move_history 2 5 1) }
    ensures replies { replies_in standard_options (move_history 2 5 1)
        ≡ reply.Done ∷ reply.Done ∷ reply.Done ∷ reply.Done ∷ reply.Bytes (codes "efabcd") ∷ [] }
{}

/// A write past the end puts zeros between.
pub fn padding()
    ensures legal { IsLegalAlone standard_options padding_history }
    ensures replies { replies_in standard_options padding_history
        ≡ reply.Done ∷ reply.Done ∷ reply.Done ∷ reply.Done ∷ reply.Bytes (codes "ab" ++ 0 ∷ 0 ∷ codes "x") ∷ [] }
{}

/// An erasing answers how many bytes it erased, and leaves the length.
pub fn erasing()
    ensures legal { IsLegalAlone standard_options erasing_history }
    ensures replies { replies_in standard_options erasing_history
        ≡ reply.Done ∷ reply.Done ∷ reply.Done ∷ reply.Number 2 ∷ reply.Bytes (codes "abcd" ++ 0 ∷ 0 ∷ [])
        ∷ reply.Number 0 ∷ [] }
{}
