//! How turns move blocks, and what is reached, with blocks and births written out.
ghost use Rattle.std.specs.Prelude.{◌≡◌, [], ◌∷◌, map, Some, None, true, false};
ghost use Rattle.sf_types.specs.declared.call.Call.TheVariants as call;
ghost use Rattle.sf_types.specs.Space.Grants.{maximal_runs, granted_blocks};
ghost use Rattle.sf_types.specs.Space.Placings.{IsSafe};
ghost use Rattle.sf_types.specs.Space.Plans.{planned_places};
ghost use Rattle.sf_types.specs.Space.Reach.{reach};
ghost use Rattle.sf_types.specs.Space.Use.{free_of};
ghost use Rattle.sf_types.specs.Play.Blocks.{all_free, after_entries, after_publication, after_reclaim, after_collection, after_shrink, departed_blocks};
ghost use Rattle.sf_types.specs.Play.Turns.{Ends, Promises, Collects, OfSession, Reclaims, action_where, round, rounds, enough_rounds};
ghost use Rattle.sf_laws.specs.BlockExamples.{at, spread, nothing, one_content, saved_content};

/// At first all blocks are free, and nothing is collected.
pub fn all_blocks_are_free()
    ensures free { (all_free 3 2).free ≡ 0 ∷ 1 ∷ 2 ∷ [] }
    ensures collected { (all_free 3 2).collected ≡ [] ∷ [] ∷ [] }
    ensures places { (all_free 3 2).places ≡ [] }
    ensures parked { (all_free 3 2).parked ≡ [] }
{}

/// A grant takes the front of the lowest run that has enough; where there is none, the whole of the longest run, the lowest of equals,
/// and then the rest so. Free are 0 and 1, 4 to 6, and 8 to 10.
pub fn grants()
    ensures runs { maximal_runs (0 ∷ 1 ∷ 4 ∷ 5 ∷ 6 ∷ 8 ∷ 9 ∷ 10 ∷ [])
        ≡ record { first = 0; blocks = 2 } ∷ record { first = 4; blocks = 3 } ∷ record { first = 8; blocks = 3 } ∷ [] }
    ensures fits { map (λ n. granted_blocks (0 ∷ 1 ∷ 4 ∷ 5 ∷ 6 ∷ 8 ∷ 9 ∷ 10 ∷ []) n) (0 ∷ 1 ∷ 2 ∷ 3 ∷ [])
        ≡ [] ∷ (0 ∷ []) ∷ (0 ∷ 1 ∷ []) ∷ (4 ∷ 5 ∷ 6 ∷ []) ∷ [] }
    ensures several { map (λ n. granted_blocks (0 ∷ 1 ∷ 4 ∷ 5 ∷ 6 ∷ 8 ∷ 9 ∷ 10 ∷ []) n) (4 ∷ 6 ∷ 7 ∷ 8 ∷ [])
        ≡ (4 ∷ 5 ∷ 6 ∷ 0 ∷ []) ∷ (4 ∷ 5 ∷ 6 ∷ 8 ∷ 9 ∷ 10 ∷ []) ∷ (4 ∷ 5 ∷ 6 ∷ 8 ∷ 9 ∷ 10 ∷ 0 ∷ []) ∷ (4 ∷ 5 ∷ 6 ∷ 8 ∷ 9 ∷ 10 ∷ 0 ∷ 1 ∷ []) ∷ [] }
{}

/// The blocks of births that leave are parked behind the others, the place with the lowest first block first, each in its content's
/// order.
pub fn departed_blocks_are_parked()
    ensures parked { (after_entries nothing nothing spread).parked ≡ 8 ∷ 6 ∷ 7 ∷ 1 ∷ 0 ∷ 2 ∷ 3 ∷ [] }
    ensures places { (after_entries nothing nothing spread).places ≡ [] }
    ensures free { (after_entries nothing nothing spread).free ≡ 4 ∷ 9 ∷ [] }
    ensures some { departed_blocks one_content spread.places ≡ 1 ∷ 0 ∷ 2 ∷ [] }
{}

/// A publication gives the new birth the next of its session's collected blocks, and makes the rest free. The births that leave are
/// parked in the same turn.
pub fn a_publication_places()
    ensures places { (after_publication nothing one_content 1 (record spread { places = [] })).places ≡ at 1 (12 ∷ 5 ∷ []) ∷ [] }
    ensures free { (after_publication nothing one_content 1 (record spread { places = [] })).free ≡ 4 ∷ 9 ∷ 10 ∷ [] }
    ensures collected { (after_publication nothing one_content 1 (record spread { places = [] })).collected ≡ [] ∷ [] ∷ [] }
    ensures parked { (after_publication one_content one_content 1 spread).parked ≡ 8 ∷ 6 ∷ 7 ∷ 1 ∷ 0 ∷ 2 ∷ [] }
    ensures unused { (after_publication one_content one_content 1 spread).free ≡ 4 ∷ 5 ∷ 9 ∷ 10 ∷ 12 ∷ [] }
{}

/// A reclaim makes the first parked blocks free, or all where there are fewer.
pub fn reclaims()
    ensures some { (after_reclaim 2 spread).free ≡ 4 ∷ 6 ∷ 8 ∷ 9 ∷ [] }
    ensures left { (after_reclaim 2 spread).parked ≡ 7 ∷ [] }
    ensures all { (after_reclaim 64 spread).free ≡ 4 ∷ 6 ∷ 7 ∷ 8 ∷ 9 ∷ [] }
    ensures none { (after_reclaim 64 spread).parked ≡ [] }
{}

/// A collection first makes as many parked blocks free as are wanting, and collects what the grant chooses.
pub fn collections()
    ensures enough { (after_collection 2 2 spread).collected ≡ (12 ∷ 5 ∷ 10 ∷ []) ∷ (4 ∷ 9 ∷ []) ∷ [] }
    ensures untouched { (after_collection 2 2 spread).parked ≡ 8 ∷ 6 ∷ 7 ∷ [] }
    ensures one { (after_collection 2 1 spread).free ≡ 9 ∷ [] }
    ensures wanting { (after_collection 2 4 spread).collected ≡ (12 ∷ 5 ∷ 10 ∷ []) ∷ (8 ∷ 9 ∷ 4 ∷ 6 ∷ []) ∷ [] }
    ensures left { (after_collection 2 4 spread).parked ≡ 7 ∷ [] }
    ensures none { (after_collection 2 4 spread).free ≡ [] }
{}

/// A shrink places the births one after the other, each in one run, and frees all other blocks.
pub fn shrinks()
    ensures places { planned_places spread.places ≡ at 1 (0 ∷ []) ∷ at 2 (1 ∷ 2 ∷ []) ∷ at 3 (3 ∷ []) ∷ [] }
    ensures after { (after_shrink 8 spread).places ≡ at 1 (0 ∷ []) ∷ at 2 (1 ∷ 2 ∷ []) ∷ at 3 (3 ∷ []) ∷ [] }
    ensures parked { (after_shrink 8 spread).parked ≡ [] }
    ensures free { (after_shrink 8 spread).free ≡ 4 ∷ 5 ∷ 6 ∷ 7 ∷ [] }
{}

/// What a turn does for a call: it ends, or is promised; what was promised is collected, and then it ends. A promise of no block has
/// no collection.
pub fn actions()
    ensures ends { action_where None false 0 ≡ Ends }
    ensures promises { action_where None true 0 ≡ Promises }
    ensures collects { action_where (Some (record { call = call.Commit; blocks = 3; births = [] })) true 0 ≡ Collects 3 }
    ensures collected { action_where (Some (record { call = call.Commit; blocks = 3; births = [] })) true 3 ≡ Ends }
    ensures none { action_where (Some (record { call = call.Commit; blocks = 0; births = [] })) true 0 ≡ Ends }
{}

/// In a round each session in order takes a turn, and then one reclaim follows.
pub fn rounds_of_turns()
    ensures one { round 3 ≡ OfSession 1 ∷ OfSession 2 ∷ OfSession 3 ∷ Reclaims ∷ [] }
    ensures two { rounds 1 2 ≡ OfSession 1 ∷ Reclaims ∷ OfSession 1 ∷ Reclaims ∷ [] }
    ensures enough { enough_rounds ((call.Commit ∷ call.Commit ∷ []) ∷ [] ∷ []) ≡ 12 }
{}

/// A savepoint's value keeps its content in reach.
pub fn a_savepoint_keeps_its_content()
    ensures reached { reach saved_content ≡ 1 ∷ [] }
    ensures free { free_of saved_content ≡ 1 }
{}

/// A safe placing has just the births in reach, each at as many blocks as its content takes, all below the capacity, which is 13, and
/// none twice. The one content in reach has 600 bytes.
pub fn safe_placings()
    ensures safe { IsSafe one_content (at 1 (12 ∷ 3 ∷ []) ∷ []) }
    ensures not_past { IsSafe one_content (at 1 (3 ∷ 13 ∷ []) ∷ []) → ⊥ }
    ensures not_twice { IsSafe one_content (at 1 (3 ∷ 3 ∷ []) ∷ []) → ⊥ }
    ensures not_short { IsSafe one_content (at 1 (3 ∷ []) ∷ []) → ⊥ }
    ensures not_missing { IsSafe one_content [] → ⊥ }
    ensures not_more { IsSafe one_content (at 1 (3 ∷ 4 ∷ []) ∷ at 2 (5 ∷ []) ∷ []) → ⊥ }
{}
