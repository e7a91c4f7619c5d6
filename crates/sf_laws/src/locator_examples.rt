//! Examples of locators and savepoints.
ghost use Rattle.std.specs.Prelude.{◌≡◌, [], ◌∷◌, codes};
ghost use Rattle.sf_types.specs.declared.reply.Reply.TheVariants as reply;
ghost use Rattle.sf_types.specs.declared.reply.Fault.TheVariants as fault;
ghost use Rattle.sf_types.specs.Limits.{standard_options};
ghost use Rattle.sf_types.specs.Space.Reach.{reach};
ghost use Rattle.sf_types.specs.Space.Use.{free_of};
ghost use Rattle.sf_laws.specs.Histories.{IsLegalAlone, replies_in, table_at_end};
ghost use Rattle.sf_laws.specs.LocatorExamples.{across_transactions, assigned_history, rolled_back_history, copies_history, savepoint_history};

/// A locator of a transaction that has ended can't be written through in another one; one that was selected outside of
/// any transaction can, where the row is locked.
pub fn locators_across_transactions()
    ensures legal { IsLegalAlone standard_options across_transactions }
    ensures replies { replies_in standard_options across_transactions
        ≡ reply.Done ∷ reply.Committed 1 ∷ reply.Done ∷ reply.Done ∷ reply.Committed 2
        ∷ reply.Refused fault.SpansTransactions ∷ reply.Refused fault.RowNotLocked ∷ reply.Done ∷ reply.Done
        ∷ reply.Number 1 ∷ [] }
{}

/// A copy keeps its value. A write works on the row's value in the transaction, whichever locator it goes through.
pub fn assigned_locators()
    ensures legal { IsLegalAlone standard_options assigned_history }
    ensures replies { replies_in standard_options assigned_history
        ≡ reply.Done ∷ reply.Done ∷ reply.Done ∷ reply.Done ∷ reply.Done ∷ reply.Bytes (codes "ab")
        ∷ reply.Bytes (codes "Xb") ∷ reply.Done ∷ reply.Bytes (codes "XY") ∷ reply.Bytes (codes "Xb") ∷ [] }
{}

/// A rollback loses the dirty locator, and leaves the clean one.
pub fn rollback_loses_dirty_locators()
    ensures legal { IsLegalAlone standard_options rolled_back_history }
    ensures replies { replies_in standard_options rolled_back_history
        ≡ reply.Done ∷ reply.Committed 1 ∷ reply.Done ∷ reply.Done ∷ reply.Done ∷ reply.Done
        ∷ reply.Refused fault.Lost ∷ reply.Number 0 ∷ reply.Done ∷ [] }
{}

/// A copied part keeps its marks, so nothing is flushed at the second commit. A copy is refused past the source's end,
/// past the length of an object, and for an amount of 0.
pub fn copies_between_rows()
    ensures legal { IsLegalAlone standard_options copies_history }
    ensures replies { replies_in standard_options copies_history
        ≡ reply.Done ∷ reply.Done ∷ reply.Done ∷ reply.Done ∷ reply.Committed 1 ∷ reply.Done ∷ reply.Done ∷ reply.Done
        ∷ reply.Bytes (codes "cdef") ∷ reply.Refused fault.SourcePastEnd ∷ reply.Refused fault.TooLong
        ∷ reply.Refused fault.ArgOutOfRange ∷ reply.Committed 2 ∷ reply.Ended ∷ [] }
    ensures reached { reach (table_at_end standard_options copies_history) ≡ 1 ∷ [] }
    ensures free { free_of (table_at_end standard_options copies_history) ≡ 1023 }
{}

/// Going back to a savepoint loses the locators of later work, releases the row that was locked later and erases the
/// later savepoint. The savepoint and the transaction stay, until the commit erases the savepoint.
pub fn rollback_to_a_savepoint()
    ensures legal { IsLegalAlone standard_options savepoint_history }
    ensures replies { replies_in standard_options savepoint_history
        ≡ reply.Done ∷ reply.Done ∷ reply.Done ∷ reply.Done ∷ reply.Committed 1 ∷ reply.Done ∷ reply.Done ∷ reply.Done
        ∷ reply.Done ∷ reply.Done ∷ reply.Done ∷ reply.Done ∷ reply.Refused fault.Lost ∷ reply.Refused fault.Lost
        ∷ reply.Refused fault.RowNotLocked ∷ reply.Refused fault.NoSavepoint ∷ reply.Done ∷ reply.Bytes (codes "ab")
        ∷ reply.Done ∷ reply.Committed 2 ∷ reply.Refused fault.NoSavepoint ∷ [] }
{}
