//! What calls do to each mark of the locators that they name and of those that they don't, and to the session's transaction.
ghost use Rattle.std.specs.Prelude.{◌≡◌, [], ◌∷◌, ◌++◌, map, codes, true, false};
ghost use Rattle.sf_types.specs.declared.call.Call.TheVariants as call;
ghost use Rattle.sf_types.specs.Table.Sessions.{locked_rows};
ghost use Rattle.sf_types.specs.Table.Versions.{commit_count};
ghost use Rattle.sf_types.specs.Orders.Histories.{table_after};
ghost use Rattle.sf_laws.specs.Histories.{calls, flushes};
ghost use Rattle.sf_laws.specs.MarkExamples.{open_table, after, locators_after, p, r, s};

/// A write through p made it dirty with the open transaction's number and the epoch; SelectAsOf makes a read-only one of no
/// transaction; Select outside a transaction one of none with the epoch of then.
pub fn marks_when_set()
    ensures locators { locators_after [] ≡ p ∷ r ∷ s ∷ [] }
    ensures opened { (after []).opened ≡ 2 }
    ensures open { (after []).is_open ≡ true }
    ensures epoch { (after []).epoch ≡ 1 }
{}

/// A locator that is selected or locked in a transaction has its number and the epoch, and is dirty where the row was worked on.
/// One of another row isn't.
pub fn marks_in_a_transaction()
    ensures select { locators_after (calls (call.Select (codes "t") (codes "a") ∷ [])) ≡ p ∷ r ∷ s ∷ record p { name = codes "t" } ∷ [] }
    ensures lock { locators_after (calls (call.Lock (codes "t") (codes "a") ∷ [])) ≡ p ∷ r ∷ s ∷ record p { name = codes "t" } ∷ [] }
    ensures as_of { locators_after (calls (call.SelectAsOf (codes "s") (codes "a") 1 ∷ [])) ≡ p ∷ r ∷ record r { name = codes "s" } ∷ [] }
    ensures new_row { locators_after (calls (call.Insert (codes "b") ∷ call.Select (codes "t") (codes "b") ∷ [])) ≡ p ∷ r ∷ s ∷ record p { name = codes "t"; bytes = [] } ∷ [] }
    ensures later { locators_after (calls (call.Savepoint (codes "j") ∷ call.Lock (codes "t") (codes "a") ∷ [])) ≡ p ∷ r ∷ s ∷ record p { name = codes "t"; epoch = 2 } ∷ [] }
{}

/// Assign copies all marks and the epoch, and leaves the source. Free takes its locator away alone.
pub fn marks_of_copies()
    ensures dirty { locators_after (calls (call.Savepoint (codes "j") ∷ call.Assign (codes "s") (codes "p") ∷ [])) ≡ p ∷ r ∷ record p { name = codes "s" } ∷ [] }
    ensures read_only { locators_after (calls (call.Assign (codes "t") (codes "r") ∷ [])) ≡ p ∷ r ∷ s ∷ record r { name = codes "t" } ∷ [] }
    ensures free { locators_after (calls (call.Free (codes "r") ∷ [])) ≡ p ∷ s ∷ [] }
{}

/// A write through one locator of a row works on the row's value in the transaction, and leaves the other locators.
pub fn marks_when_written()
    ensures clean { locators_after (calls (call.WriteAppend (codes "s") (codes "d") ∷ [])) ≡ p ∷ r ∷ record p { name = codes "s"; bytes = codes "abcd" } ∷ [] }
    ensures later { locators_after (calls (call.Savepoint (codes "j") ∷ call.Trim (codes "s") 1 ∷ [])) ≡ p ∷ r ∷ record p { name = codes "s"; bytes = codes "a"; epoch = 2 } ∷ [] }
    ensures same_bytes { locators_after (calls (call.Trim (codes "s") 3 ∷ [])) ≡ p ∷ r ∷ record p { name = codes "s" } ∷ [] }
    ensures options { locators_after (calls (call.SetOptions (codes "s") true ∷ [])) ≡ p ∷ r ∷ record p { name = codes "s" } ∷ [] }
    ensures source { locators_after (calls (call.Append (codes "p") (codes "r") ∷ [])) ≡ record p { bytes = codes "abcab" } ∷ r ∷ s ∷ [] }
{}

/// Calls that set no locator and write through none leave all of them.
pub fn marks_that_stay()
    ensures reading { locators_after (calls (call.Length (codes "p") ∷ call.Read (codes "r") 2 1 ∷ call.Instr (codes "s") (codes "b") 1 ∷ call.Compare (codes "p") (codes "s") 2 1 1 ∷ [])) ≡ p ∷ r ∷ s ∷ [] }
    ensures rows { locators_after (calls (call.Insert (codes "b") ∷ call.Delete (codes "a") ∷ call.Savepoint (codes "j") ∷ [])) ≡ p ∷ r ∷ s ∷ [] }
    ensures refused { locators_after (calls (call.Write (codes "r") 1 (codes "x") ∷ call.Trim (codes "p") 9 ∷ call.Assign (codes "t") (codes "u") ∷ [])) ≡ p ∷ r ∷ s ∷ [] }
{}

/// RollbackTo makes the dirty locators of the savepoint's epoch or a later one lost, with no bytes; a dirty one of an earlier epoch,
/// and every clean one, stays.
pub fn marks_at_a_savepoint()
    ensures since { locators_after (calls (call.RollbackTo (codes "k") ∷ [])) ≡ record p { bytes = []; lost = true } ∷ r ∷ s ∷ [] }
    ensures later { locators_after (calls (call.Savepoint (codes "j") ∷ call.WriteAppend (codes "s") (codes "d") ∷ call.RollbackTo (codes "j") ∷ []))
        ≡ p ∷ r ∷ record p { name = codes "s"; bytes = []; epoch = 2; lost = true } ∷ [] }
    ensures opened { (after (calls (call.RollbackTo (codes "k") ∷ []))).is_open ≡ true }
    ensures working { (after (calls (call.RollbackTo (codes "k") ∷ []))).working ≡ [] }
    ensures stays { map (λ x. x.name) (after (calls (call.Savepoint (codes "j") ∷ call.RollbackTo (codes "k") ∷ []))).savepoints ≡ codes "k" ∷ [] }
    ensures unlocked { locked_rows (table_after open_table (calls (call.RollbackTo (codes "k") ∷ []))).locks 1 ≡ [] }
    ensures kept { locked_rows (table_after open_table (calls (call.Savepoint (codes "j") ∷ call.Insert (codes "b") ∷ call.RollbackTo (codes "j") ∷ []))).locks 1 ≡ codes "a" ∷ [] }
    ensures commit { commit_count (table_after open_table (calls (call.RollbackTo (codes "k") ∷ call.Commit ∷ []))) ≡ 2 }
{}

/// A savepoint that is set anew stands last, with the new epoch, and no transaction is opened by it.
pub fn savepoints_set_anew()
    ensures order { map (λ x. x.name) (after (calls (call.Savepoint (codes "j") ∷ call.Savepoint (codes "k") ∷ []))).savepoints ≡ codes "j" ∷ codes "k" ∷ [] }
    ensures epochs { map (λ x. x.epoch) (after (calls (call.Savepoint (codes "j") ∷ call.Savepoint (codes "k") ∷ []))).savepoints ≡ 2 ∷ 3 ∷ [] }
    ensures locked { map (λ x. x.locked) (after (calls (call.Savepoint (codes "j") ∷ []))).savepoints ≡ [] ∷ (codes "a" ∷ []) ∷ [] }
    ensures epoch { (after (calls (call.Savepoint (codes "j") ∷ []))).epoch ≡ 2 }
    ensures closed { (after (flushes call.Commit ++ calls (call.Savepoint (codes "j") ∷ []))).is_open ≡ false }
{}

/// Commit makes the dirty locators clean, which keep their bytes, numbers and epochs. Rollback makes them lost, with no bytes. End
/// takes all locators away. Each releases the locks and erases the savepoints.
pub fn marks_at_transaction_ends()
    ensures commit { locators_after (flushes call.Commit) ≡ record p { dirty = false } ∷ r ∷ s ∷ [] }
    ensures rollback { locators_after (calls (call.Rollback ∷ [])) ≡ record p { bytes = []; lost = true } ∷ r ∷ s ∷ [] }
    ensures end { locators_after (calls (call.End ∷ [])) ≡ [] }
    ensures open { map (λ entries. (after entries).is_open) (flushes call.Commit ∷ calls (call.Rollback ∷ []) ∷ calls (call.End ∷ []) ∷ []) ≡ false ∷ false ∷ false ∷ [] }
    ensures opened { map (λ entries. (after entries).opened) (flushes call.Commit ∷ calls (call.Rollback ∷ []) ∷ calls (call.End ∷ []) ∷ []) ≡ 2 ∷ 2 ∷ 2 ∷ [] }
    ensures working { map (λ entries. (after entries).working) (flushes call.Commit ∷ calls (call.Rollback ∷ []) ∷ calls (call.End ∷ []) ∷ []) ≡ [] ∷ [] ∷ [] ∷ [] }
    ensures savepoints { map (λ entries. (after entries).savepoints) (flushes call.Commit ∷ calls (call.Rollback ∷ []) ∷ calls (call.End ∷ []) ∷ []) ≡ [] ∷ [] ∷ [] ∷ [] }
    ensures locks { map (λ entries. (table_after open_table entries).locks) (flushes call.Commit ∷ calls (call.Rollback ∷ []) ∷ calls (call.End ∷ []) ∷ []) ≡ [] ∷ [] ∷ [] ∷ [] }
    ensures commits { map (λ entries. commit_count (table_after open_table entries)) (flushes call.Commit ∷ calls (call.Rollback ∷ []) ∷ calls (call.End ∷ []) ∷ []) ≡ 2 ∷ 1 ∷ 1 ∷ [] }
    ensures ended { map (λ entries. (after entries).has_ended) (flushes call.Commit ∷ calls (call.Rollback ∷ []) ∷ calls (call.End ∷ []) ∷ []) ≡ false ∷ false ∷ true ∷ [] }
{}

/// Where no transaction is open, Commit makes no commit and erases the savepoints, and Rollback erases them too.
pub fn ends_without_a_transaction()
    ensures commits { commit_count (table_after open_table (flushes call.Commit ++ calls (call.Savepoint (codes "j") ∷ call.Commit ∷ []))) ≡ 2 }
    ensures commit { (after (flushes call.Commit ++ calls (call.Savepoint (codes "j") ∷ call.Commit ∷ []))).savepoints ≡ [] }
    ensures rollback { (after (flushes call.Commit ++ calls (call.Savepoint (codes "j") ∷ call.Rollback ∷ []))).savepoints ≡ [] }
    ensures locators { locators_after (flushes call.Commit ++ calls (call.Commit ∷ call.Rollback ∷ [])) ≡ record p { dirty = false } ∷ r ∷ s ∷ [] }
{}
