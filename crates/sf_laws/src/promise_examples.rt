//! Promises at several floors, publications beside others, refusals for want of space, and cancels.
ghost use Rattle.std.specs.Prelude.{◌≡◌, [], ◌∷◌, ◌++◌, map, codes, drop, None, true, false};
ghost use Rattle.std.specs.Option.{option_map_or};
ghost use Rattle.sf_types.specs.declared.call.Call.TheVariants as call;
ghost use Rattle.sf_types.specs.declared.options.Choice.TheVariants as choice;
ghost use Rattle.sf_types.specs.declared.reply.Fault.TheVariants as fault;
ghost use Rattle.sf_types.specs.declared.reply.Reply.TheVariants as reply;
ghost use Rattle.sf_types.specs.Values.Marks.{births_in};
ghost use Rattle.sf_types.specs.Table.Sessions.{session_of};
ghost use Rattle.sf_types.specs.Table.Versions.{present_rows};
ghost use Rattle.sf_types.specs.Space.Reach.{reach};
ghost use Rattle.sf_types.specs.Space.Use.{free_of};
ghost use Rattle.sf_types.specs.Orders.Histories.{history_table};
ghost use Rattle.sf_laws.specs.CallExamples.{zero, stored};
ghost use Rattle.sf_laws.specs.Histories.{store_of, flushes};
ghost use Rattle.sf_laws.specs.SpaceExamples.{two_writers, both_promised};
ghost use Rattle.sf_laws.specs.PromiseExamples.{kept_while_room, two_versions, third_content, found_while_kept, equal_cuts, cancelled, three_choices, answers, table};

/// A promise takes the least floor at which it fits, and gives up no more versions.
pub fn granted_at_a_later_floor()
    ensures before { (table kept_while_room two_versions).floor ≡ 0 }
    ensures full { free_of (table kept_while_room two_versions) ≡ 0 }
    ensures after { (table kept_while_room third_content).floor ≡ 2 }
    ensures promised { option_map_or (λ q. q.blocks) (session_of (table kept_while_room third_content) 1).promise 0 ≡ 1 }
    ensures found { option_map_or (λ q. q.births) (session_of (table kept_while_room third_content) 1).promise [] ≡ [] }
    ensures free { free_of (table kept_while_room third_content) ≡ 0 }
    ensures reached { reach (table kept_while_room third_content) ≡ 2 ∷ [] }
    ensures unanswered { drop 11 (answers kept_while_room third_content) ≡ [] }
{}

/// A promise that fits at no floor is refused with the numbers of the last one, and leaves the floor, the working values and the
/// locks.
pub fn refused_at_the_last_floor()
    ensures reply { drop 14 (answers kept_while_room found_while_kept) ≡ reply.Refused (fault.NoSpace 2 1) ∷ [] }
    ensures floor { (table kept_while_room found_while_kept).floor ≡ 0 }
    ensures unpromised { (session_of (table kept_while_room found_while_kept) 1).promise ≡ None }
    ensures working { map (λ e. e.0) (session_of (table kept_while_room found_while_kept) 1).working ≡ codes "b" ∷ codes "c" ∷ [] }
    ensures locks { (table kept_while_room found_while_kept).locks ≡ (codes "b", 1) ∷ (codes "c", 1) ∷ [] }
    ensures reached { reach (table kept_while_room found_while_kept) ≡ 1 ∷ 2 ∷ [] }
{}

/// Without the option max the floor alone is tried: the same promise is refused with its numbers.
pub fn refused_at_the_floor_alone()
    ensures reply { drop 14 (answers (record (store_of 2) { retention = 2 }) found_while_kept) ≡ reply.Refused (fault.NoSpace 1 0) ∷ [] }
{}

/// Equal sharing cuts are counted once, and their publication gives them one birth. Where they don't share, each counts and gets
/// its own.
pub fn equal_cuts_count_once()
    ensures wanted { option_map_or (λ q. q.blocks) (session_of (table (store_of 3) equal_cuts) 1).promise 0 ≡ 2 }
    ensures births { map (λ e. births_in e.1) (present_rows (table (store_of 3) (equal_cuts ++ drop 1 (flushes call.Commit)))) ≡ (1 ∷ []) ∷ (1 ∷ []) ∷ (2 ∷ []) ∷ [] }
    ensures apart { option_map_or (λ q. q.blocks) (session_of (table (record (store_of 3) { dedup = false }) equal_cuts) 1).promise 0 ≡ 3 }
    ensures own { map (λ e. births_in e.1) (present_rows (table (record (store_of 3) { dedup = false }) (equal_cuts ++ drop 1 (flushes call.Commit)))) ≡ (1 ∷ []) ∷ (2 ∷ []) ∷ (3 ∷ []) ∷ [] }
    ensures fits { free_of (table (store_of 2) equal_cuts) ≡ 0 }
    ensures refused { drop 9 (answers (store_of 1) equal_cuts) ≡ reply.Refused (fault.NoSpace 2 1) ∷ [] }
{}

/// A publication finds what another session published since its promise, and the blocks that it doesn't need are free.
pub fn found_at_the_publication()
    ensures promised { option_map_or (λ q. q.blocks) (session_of (history_table (store_of 2) 2 two_writers) 2).promise 0 ≡ 1 }
    ensures contents { map (λ x. x.bytes) (history_table (store_of 2) 2 both_promised).contents ≡ codes "abc" ∷ [] }
    ensures births { map (λ e. births_in e.1) (present_rows (history_table (store_of 2) 2 both_promised)) ≡ (1 ∷ []) ∷ (1 ∷ []) ∷ [] }
    ensures free { free_of (history_table (store_of 2) 2 both_promised) ≡ 1 }
{}

/// A cancel ends the promise and not the call: its blocks are free, the transaction stays, and the call can be promised again.
pub fn a_cancelled_promise()
    ensures unpromised { (session_of (table (store_of 1) cancelled) 1).promise ≡ None }
    ensures free { free_of (table (store_of 1) cancelled) ≡ 1 }
    ensures unanswered { drop 3 (answers (store_of 1) cancelled) ≡ [] }
    ensures open { map (λ e. e.0) (session_of (table (store_of 1) cancelled) 1).working ≡ codes "a" ∷ [] }
    ensures again { drop 3 (answers (store_of 1) (cancelled ++ flushes call.Commit)) ≡ reply.Committed 1 ∷ [] }
{}

/// A publication keeps the choices of the values that it settles, and marks their bytes by their places in the contents.
pub fn settled_values()
    ensures choices { map (λ e. e.1.choice) (present_rows (table (store_of 4) three_choices)) ≡ choice.Share ∷ choice.Keep ∷ choice.Standard ∷ [] }
    ensures bytes { map (λ e. e.1.bytes) (present_rows (table (store_of 4) three_choices))
        ≡ (stored 97 1 0 ∷ stored 98 1 1 ∷ []) ∷ (stored 97 2 0 ∷ stored 98 2 1 ∷ []) ∷ (stored 97 1 0 ∷ stored 98 1 1 ∷ zero ∷ stored 99 3 0 ∷ []) ∷ [] }
    ensures shared { map (λ x. x.is_shared) (table (store_of 4) three_choices).contents ≡ true ∷ false ∷ true ∷ [] }
{}
