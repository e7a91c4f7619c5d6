//! Worked plays: their orders and places.
ghost use Rattle.std.specs.Prelude.{◌≡◌, [], ◌∷◌, ◌++◌, codes, drop, true};
ghost use Rattle.sf_types.specs.declared.reply.Fault.TheVariants as fault;
ghost use Rattle.sf_types.specs.declared.reply.Reply.TheVariants as reply;
ghost use Rattle.sf_types.specs.Orders.Histories.{history_replies};
ghost use Rattle.sf_types.specs.Play.Turns.{play_end, play_order, play_places, Shrinks};
ghost use Rattle.sf_laws.specs.Histories.{store_of};
ghost use Rattle.sf_laws.specs.TurnExamples.{call_of, promise_of, sessions_turns, one_block_calls, overwriting_calls, keeping_calls, writer, shrinking_calls, retention_calls, locking_calls, busy_calls, upload, undone_calls, releasing_calls, waiting_calls, no_room_calls};

/// A store of one block has space for one content. An equal one shares it, and another one is refused until the first is gone.
pub fn a_store_of_one_block()
    ensures order { play_order (record (store_of 1) { gather = 512 }) (one_block_calls ∷ []) []
        ≡ call_of 1 ∷ call_of 1 ∷ promise_of 1 ∷ call_of 1 ∷ promise_of 1 ∷ call_of 1 ∷ promise_of 1 ∷ call_of 1 ∷ call_of 1 ∷ call_of 1 ∷ call_of 1 ∷ [] }
    ensures places { play_places (record (store_of 1) { gather = 512 }) (one_block_calls ∷ []) [] ≡ record { birth = 1; blocks = 0 ∷ [] } ∷ [] }
{}

/// A locator keeps the content that it reads in use, and so the blocks.
pub fn locators_that_keep_space_in_use()
    ensures order { play_order (store_of 2) (overwriting_calls ∷ keeping_calls ∷ []) (sessions_turns (1 ∷ 1 ∷ 1 ∷ 1 ∷ 1 ∷ 2 ∷ 1 ∷ 1 ∷ 1 ∷ 1 ∷ 2 ∷ 1 ∷ 1 ∷ 2 ∷ 1 ∷ []))
        ≡ call_of 1 ∷ call_of 1 ∷ call_of 1 ∷ promise_of 1 ∷ call_of 1 ∷ call_of 2 ∷ call_of 1 ∷ call_of 1 ∷ promise_of 1 ∷ call_of 1 ∷ call_of 2 ∷ call_of 2 ∷ call_of 2 ∷ call_of 2
        ∷ call_of 1 ∷ call_of 1 ∷ promise_of 1 ∷ call_of 2 ∷ call_of 2 ∷ promise_of 1 ∷ call_of 2 ∷ call_of 1 ∷ call_of 1 ∷ [] }
    ensures places { play_places (store_of 2) (overwriting_calls ∷ keeping_calls ∷ []) (sessions_turns (1 ∷ 1 ∷ 1 ∷ 1 ∷ 1 ∷ 2 ∷ 1 ∷ 1 ∷ 1 ∷ 1 ∷ 2 ∷ 1 ∷ 1 ∷ 2 ∷ 1 ∷ []))
        ≡ record { birth = 3; blocks = 0 ∷ [] } ∷ [] }
{}

/// Two sessions that commit equal contents share one place.
pub fn equal_contents_of_two_sessions()
    ensures order { play_order (store_of 2) (writer (codes "a") (codes "p") ∷ writer (codes "b") (codes "q") ∷ []) (sessions_turns (1 ∷ 1 ∷ 2 ∷ 2 ∷ 1 ∷ 2 ∷ 1 ∷ 2 ∷ 1 ∷ 2 ∷ []))
        ≡ call_of 1 ∷ call_of 1 ∷ call_of 2 ∷ call_of 2 ∷ call_of 1 ∷ promise_of 1 ∷ call_of 2 ∷ promise_of 2 ∷ call_of 1 ∷ call_of 2 ∷ call_of 1 ∷ call_of 2 ∷ [] }
    ensures places { play_places (store_of 2) (writer (codes "a") (codes "p") ∷ writer (codes "b") (codes "q") ∷ []) (sessions_turns (1 ∷ 1 ∷ 2 ∷ 2 ∷ 1 ∷ 2 ∷ 1 ∷ 2 ∷ 1 ∷ 2 ∷ []))
        ≡ record { birth = 1; blocks = 0 ∷ [] } ∷ [] }
{}

/// In a store of one block the second of two equal contents is refused while the first isn't published.
pub fn equal_contents_and_one_block()
    ensures order { play_order (store_of 1) (writer (codes "a") (codes "p") ∷ writer (codes "b") (codes "q") ∷ []) (sessions_turns (1 ∷ 1 ∷ 2 ∷ 2 ∷ 1 ∷ 2 ∷ []))
        ≡ call_of 1 ∷ call_of 1 ∷ call_of 2 ∷ call_of 2 ∷ call_of 1 ∷ promise_of 1 ∷ call_of 2 ∷ promise_of 2 ∷ call_of 2 ∷ call_of 1 ∷ call_of 1 ∷ [] }
    ensures places { play_places (store_of 1) (writer (codes "a") (codes "p") ∷ writer (codes "b") (codes "q") ∷ []) (sessions_turns (1 ∷ 1 ∷ 2 ∷ 2 ∷ 1 ∷ 2 ∷ []))
        ≡ record { birth = 1; blocks = 0 ∷ [] } ∷ [] }
{}

/// An old version keeps its block while it is retained.
pub fn retention_and_space()
    ensures order { play_order (record (store_of 2) { retention = 1 }) (retention_calls ∷ []) []
        ≡ call_of 1 ∷ call_of 1 ∷ call_of 1 ∷ promise_of 1 ∷ call_of 1 ∷ call_of 1 ∷ call_of 1 ∷ promise_of 1 ∷ call_of 1 ∷ call_of 1 ∷ call_of 1 ∷ promise_of 1 ∷ call_of 1 ∷ call_of 1 ∷ call_of 1 ∷ call_of 1 ∷ call_of 1 ∷ call_of 1 ∷ call_of 1 ∷ call_of 1 ∷ call_of 1 ∷ promise_of 1 ∷ call_of 1 ∷ call_of 1 ∷ [] }
    ensures places { play_places (record (store_of 2) { retention = 1 }) (retention_calls ∷ []) []
        ≡ record { birth = 2; blocks = 1 ∷ [] } ∷ record { birth = 3; blocks = 0 ∷ [] } ∷ [] }
{}

/// A row that another session has locked is busy, until its transaction ends.
pub fn row_locks()
    ensures order { play_order (store_of 4) (locking_calls ∷ busy_calls ∷ []) (sessions_turns (1 ∷ 1 ∷ 1 ∷ 2 ∷ 2 ∷ 1 ∷ 2 ∷ 2 ∷ []))
        ≡ call_of 1 ∷ call_of 1 ∷ call_of 1 ∷ call_of 2 ∷ call_of 2 ∷ call_of 1 ∷ call_of 2 ∷ call_of 2 ∷ call_of 1 ∷ call_of 2 ∷ [] }
    ensures places { play_places (store_of 4) (locking_calls ∷ busy_calls ∷ []) (sessions_turns (1 ∷ 1 ∷ 1 ∷ 2 ∷ 2 ∷ 1 ∷ 2 ∷ 2 ∷ [])) ≡ [] }
    ensures replies { history_replies (store_of 4) 2 (play_end (store_of 4) (locking_calls ∷ busy_calls ∷ []) (sessions_turns (1 ∷ 1 ∷ 1 ∷ 2 ∷ 2 ∷ 1 ∷ 2 ∷ 2 ∷ []))).history 2
        ≡ reply.Refused fault.Busy ∷ reply.Refused fault.Busy ∷ reply.Done ∷ reply.Refused fault.Duplicate ∷ reply.Ended ∷ [] }
{}

/// Two sessions upload the same bytes beside each other: each turn does one thing, and they share both contents.
pub fn two_uploads()
    ensures order { play_order (record (store_of 8) { gather = 512 }) (upload (codes "d1") ∷ upload (codes "d2") ∷ []) []
        ≡ call_of 1 ∷ call_of 2 ∷ call_of 1 ∷ call_of 2 ∷ call_of 1 ∷ call_of 1 ∷ promise_of 1 ∷ call_of 2 ∷ call_of 2 ∷ promise_of 2 ∷ call_of 1 ∷ call_of 2 ∷ call_of 1 ∷ promise_of 1 ∷ call_of 2 ∷ promise_of 2 ∷ call_of 1 ∷ call_of 2 ∷ call_of 1 ∷ call_of 2 ∷ [] }
    ensures places { play_places (record (store_of 8) { gather = 512 }) (upload (codes "d1") ∷ upload (codes "d2") ∷ []) []
        ≡ record { birth = 1; blocks = 0 ∷ 1 ∷ [] } ∷ record { birth = 2; blocks = 2 ∷ [] } ∷ [] }
{}

/// What was done after a savepoint is undone; the transaction goes on and is committed.
pub fn rollback_to_a_savepoint()
    ensures order { play_order (store_of 4) (undone_calls ∷ []) [] ≡ call_of 1 ∷ call_of 1 ∷ call_of 1 ∷ call_of 1 ∷ call_of 1 ∷ call_of 1 ∷ call_of 1 ∷ call_of 1 ∷ call_of 1 ∷ call_of 1 ∷ call_of 1 ∷ call_of 1 ∷ call_of 1 ∷ promise_of 1 ∷ call_of 1 ∷ call_of 1 ∷ [] }
    ensures places { play_places (store_of 4) (undone_calls ∷ []) [] ≡ record { birth = 1; blocks = 0 ∷ [] } ∷ [] }
    ensures replies { drop 8 (history_replies (store_of 4) 1 (play_end (store_of 4) (undone_calls ∷ []) []).history 1)
        ≡ reply.Refused fault.Lost ∷ reply.Bytes (codes "ab") ∷ reply.Done ∷ reply.Bytes (codes "abZ") ∷ reply.Refused fault.NoSavepoint ∷ reply.Committed 1 ∷ reply.Ended ∷ [] }
{}

/// A lock that was taken after a savepoint is released with it.
pub fn locks_released_by_a_savepoint()
    ensures order { play_order (store_of 4) (releasing_calls ∷ waiting_calls ∷ []) (sessions_turns (1 ∷ 1 ∷ 2 ∷ 1 ∷ 2 ∷ []))
        ≡ call_of 1 ∷ call_of 1 ∷ call_of 1 ∷ call_of 2 ∷ call_of 1 ∷ call_of 2 ∷ call_of 1 ∷ call_of 2 ∷ [] }
    ensures places { play_places (store_of 4) (releasing_calls ∷ waiting_calls ∷ []) (sessions_turns (1 ∷ 1 ∷ 2 ∷ 1 ∷ 2 ∷ [])) ≡ [] }
    ensures replies { history_replies (store_of 4) 2 (play_end (store_of 4) (releasing_calls ∷ waiting_calls ∷ []) (sessions_turns (1 ∷ 1 ∷ 2 ∷ 1 ∷ 2 ∷ []))).history 2
        ≡ reply.Refused fault.Busy ∷ reply.Done ∷ reply.Ended ∷ [] }
{}

/// Where no floor gives enough room the promise is refused, and no version is given up.
pub fn retention_max_with_no_room()
    ensures order { play_order (record (store_of 1) { max = true }) (no_room_calls ∷ []) [] ≡ call_of 1 ∷ call_of 1 ∷ call_of 1 ∷ promise_of 1 ∷ call_of 1 ∷ call_of 1 ∷ call_of 1 ∷ call_of 1 ∷ promise_of 1 ∷ call_of 1 ∷ call_of 1 ∷ [] }
    ensures places { play_places (record (store_of 1) { max = true }) (no_room_calls ∷ []) [] ≡ record { birth = 1; blocks = 0 ∷ [] } ∷ [] }
    ensures replies { drop 7 (history_replies (record (store_of 1) { max = true }) 1 (play_end (record (store_of 1) { max = true }) (no_room_calls ∷ []) []).history 1)
        ≡ reply.Refused (fault.NoSpace 1 0) ∷ reply.Refused fault.NoSuchRow ∷ reply.Ended ∷ [] }
{}

/// A shrink moves what is left to the lowest blocks, and does nothing where a promise stands.
pub fn a_shrink()
    ensures order { play_order (store_of 4) (shrinking_calls ∷ []) (sessions_turns (1 ∷ 1 ∷ 1 ∷ 1 ∷ 1 ∷ 1 ∷ 1 ∷ 1 ∷ 1 ∷ []) ++ Shrinks ∷ [])
        ≡ call_of 1 ∷ call_of 1 ∷ call_of 1 ∷ call_of 1 ∷ call_of 1 ∷ call_of 1 ∷ promise_of 1 ∷ call_of 1 ∷ call_of 1 ∷ call_of 1 ∷ call_of 1 ∷ [] }
    ensures after { play_places (store_of 4) (shrinking_calls ∷ []) (sessions_turns (1 ∷ 1 ∷ 1 ∷ 1 ∷ 1 ∷ 1 ∷ 1 ∷ 1 ∷ 1 ∷ []) ++ Shrinks ∷ [])
        ≡ record { birth = 2; blocks = 0 ∷ [] } ∷ [] }
    ensures beside { play_places (store_of 4) (shrinking_calls ∷ []) (sessions_turns (1 ∷ 1 ∷ 1 ∷ 1 ∷ 1 ∷ []) ++ Shrinks ∷ [])
        ≡ record { birth = 2; blocks = 1 ∷ [] } ∷ [] }
{}
