//! Examples about space.
ghost use Rattle.std.specs.Prelude.{◌≡◌, [], ◌∷◌, codes, map};
ghost use Rattle.sf_types.specs.declared.reply.Reply.TheVariants as reply;
ghost use Rattle.sf_types.specs.declared.reply.Fault.TheVariants as fault;
ghost use Rattle.sf_types.specs.Orders.Histories.{IsLegalHistory, history_table, history_replies};
ghost use Rattle.sf_types.specs.Table.Parts.{opening_table};
ghost use Rattle.sf_types.specs.Space.Reach.{reach};
ghost use Rattle.sf_types.specs.Space.Use.{free_of};
ghost use Rattle.sf_types.specs.Table.Versions.{commit_count, present_rows};
ghost use Rattle.sf_types.specs.Values.Marks.{strip, births_in};
ghost use Rattle.sf_laws.specs.Histories.{IsLegalAlone, replies_in, table_at_end, store_of};
ghost use Rattle.sf_laws.specs.SpaceExamples.{one_block, one_block_history, two_blocks_kept, retention_history, two_blocks_max, max_history, apart_history, one_block_apart, shared_history, two_writers, both_promised, one_promised};

/// A store of one block has no room for a second content, and finds the first one again.
pub fn store_of_one_block()
    ensures legal { IsLegalAlone one_block one_block_history }
    ensures replies { replies_in one_block one_block_history
        ≡ reply.Done ∷ reply.Done ∷ reply.Done ∷ reply.Refused (fault.NoSpace 1 0) ∷ reply.Number 512 ∷ reply.Done
        ∷ reply.Number 1024 ∷ reply.Committed 1 ∷ reply.Ended ∷ [] }
    ensures reached { reach (table_at_end one_block one_block_history) ≡ 1 ∷ [] }
    ensures free { free_of (table_at_end one_block one_block_history) ≡ 0 }
{}

/// A commit is refused where an old version takes the room, and the transaction stays. A locator reads the old version,
/// which is too old after another commit; then there is room.
pub fn retention_and_space()
    ensures legal { IsLegalAlone two_blocks_kept retention_history }
    ensures replies { replies_in two_blocks_kept retention_history
        ≡ reply.Done ∷ reply.Done ∷ reply.Done ∷ reply.Committed 1 ∷ reply.Done ∷ reply.Done ∷ reply.Committed 2
        ∷ reply.Done ∷ reply.Done ∷ reply.Refused (fault.NoSpace 1 0) ∷ reply.Done ∷ reply.Bytes (codes "AA")
        ∷ reply.Done ∷ reply.Done ∷ reply.Done ∷ reply.Committed 3 ∷ reply.Refused fault.TooOld ∷ reply.Done ∷ reply.Done
        ∷ reply.Committed 4 ∷ reply.Ended ∷ [] }
    ensures reached { reach (table_at_end two_blocks_kept retention_history) ≡ 2 ∷ 3 ∷ [] }
    ensures free { free_of (table_at_end two_blocks_kept retention_history) ≡ 0 }
    ensures rows { map (λ e. e.0) (present_rows (table_at_end two_blocks_kept retention_history)) ≡ codes "a" ∷ codes "b" ∷ [] }
    ensures commits { commit_count (table_at_end two_blocks_kept retention_history) ≡ 4 }
{}

/// With the option max a promise gives up as many old versions as let it fit, the oldest first, and no more.
pub fn retention_max_gives_up_versions()
    ensures legal { IsLegalAlone two_blocks_max max_history }
    ensures replies { replies_in two_blocks_max max_history
        ≡ reply.Done ∷ reply.Done ∷ reply.Done ∷ reply.Committed 1 ∷ reply.Done ∷ reply.Done ∷ reply.Committed 2
        ∷ reply.Done ∷ reply.Done ∷ reply.Committed 3 ∷ reply.Refused fault.TooOld ∷ reply.Done
        ∷ reply.Bytes (codes "BB") ∷ reply.Done ∷ reply.Ended ∷ [] }
    ensures reached { reach (table_at_end two_blocks_max max_history) ≡ 2 ∷ 3 ∷ [] }
    ensures free { free_of (table_at_end two_blocks_max max_history) ≡ 0 }
{}

/// An object that is kept apart has a content of its own, which no other object finds.
pub fn an_object_kept_apart()
    ensures legal { IsLegalAlone (store_of 3) apart_history }
    ensures replies { replies_in (store_of 3) apart_history
        ≡ reply.Done ∷ reply.Done ∷ reply.Done ∷ reply.Done ∷ reply.Done ∷ reply.Done ∷ reply.Done ∷ reply.Committed 1
        ∷ reply.Done ∷ reply.Done ∷ reply.Done ∷ reply.Committed 2 ∷ reply.Ended ∷ [] }
    ensures births { map (λ e. births_in e.1) (present_rows (table_at_end (store_of 3) apart_history))
        ≡ (1 ∷ []) ∷ (2 ∷ []) ∷ (2 ∷ []) ∷ [] }
    ensures free { free_of (table_at_end (store_of 3) apart_history) ≡ 1 }
{}

/// Two objects share a content by their own choice, in a store that shares nothing by itself.
pub fn objects_that_share()
    ensures legal { IsLegalAlone one_block_apart shared_history }
    ensures replies { replies_in one_block_apart shared_history
        ≡ reply.Done ∷ reply.Done ∷ reply.Done ∷ reply.Done ∷ reply.Done ∷ reply.Done ∷ reply.Done ∷ reply.Done
        ∷ reply.Committed 1 ∷ reply.Ended ∷ [] }
    ensures bytes { map (λ e. strip e.1) (present_rows (table_at_end one_block_apart shared_history))
        ≡ codes "abc" ∷ codes "abc" ∷ [] }
    ensures reached { reach (table_at_end one_block_apart shared_history) ≡ 1 ∷ [] }
    ensures free { free_of (table_at_end one_block_apart shared_history) ≡ 0 }
{}

/// Two equal contents that are promised beside each other become one at the second publication.
pub fn equal_contents_of_two_sessions()
    ensures legal { IsLegalHistory (opening_table (store_of 2) 2) both_promised }
    ensures first { history_replies (store_of 2) 2 both_promised 1 ≡ reply.Done ∷ reply.Done ∷ reply.Done ∷ reply.Committed 1 ∷ reply.Ended ∷ [] }
    ensures second { history_replies (store_of 2) 2 both_promised 2 ≡ reply.Done ∷ reply.Done ∷ reply.Done ∷ reply.Committed 2 ∷ reply.Ended ∷ [] }
    ensures promised { free_of (history_table (store_of 2) 2 two_writers) ≡ 0 }
    ensures reached { reach (history_table (store_of 2) 2 both_promised) ≡ 1 ∷ [] }
    ensures free { free_of (history_table (store_of 2) 2 both_promised) ≡ 1 }
{}

/// A standing promise takes its blocks, though its content isn't given out yet and can't be found.
pub fn equal_contents_in_one_block()
    ensures legal { IsLegalHistory (opening_table (store_of 1) 2) one_promised }
    ensures first { history_replies (store_of 1) 2 one_promised 1 ≡ reply.Done ∷ reply.Done ∷ reply.Done ∷ reply.Committed 1 ∷ reply.Ended ∷ [] }
    ensures second { history_replies (store_of 1) 2 one_promised 2 ≡ reply.Done ∷ reply.Done ∷ reply.Done ∷ reply.Refused (fault.NoSpace 1 0) ∷ reply.Ended ∷ [] }
    ensures rows { map (λ e. e.0) (present_rows (history_table (store_of 1) 2 one_promised)) ≡ codes "a" ∷ [] }
    ensures free { free_of (history_table (store_of 1) 2 one_promised) ≡ 0 }
{}
