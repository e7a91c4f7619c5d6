//! What each turn of a play keeps.
ghost use Rattle.std.specs.Prelude.{◌≡◌, ℕ, List, [], IsTrue, Some, length};
ghost use Rattle.sf_types.specs.declared.call.Call.{Call};
ghost use Rattle.sf_types.specs.declared.options.Options.{Options};
ghost use Rattle.sf_types.specs.Table.Parts.{Promise};
ghost use Rattle.sf_types.specs.Table.Sessions.{has_session, session_of};
ghost use Rattle.sf_types.specs.Play.Blocks.{collected_by, after_collection};
ghost use Rattle.sf_types.specs.Play.Turns.{Stage, empty_stage, action_at, stage_after, stage_after_reclaim, stage_after_shrink};
ghost use Rattle.sf_laws.specs.Stages.{IsSoundStage, IsAtCall};

/// The history of a store under play is legal, its placing is safe, each block stands in exactly one place, and a session has
/// collected as many blocks as were promised or none. So it is before the first turn, and each action, each reclaim of any
/// number of blocks and each shrink keeps it so.
pub fn a_stage_stays_sound()
    ensures opening { (options : Options) (sessions : ℕ) → IsSoundStage options sessions (empty_stage options sessions) }
    ensures action { (options : Options) (sessions : ℕ) (x : Stage) (s : ℕ) (locals : List Call) (c : Call)
        → IsSoundStage options sessions x → IsAtCall x.table s locals c
        → IsSoundStage options sessions (stage_after x s locals c (action_at x s locals c)) }
    ensures reclaim { (options : Options) (sessions : ℕ) (x : Stage) (max : ℕ)
        → IsSoundStage options sessions x → IsSoundStage options sessions (stage_after_reclaim max x) }
    ensures shrink { (options : Options) (sessions : ℕ) (x : Stage)
        → IsSoundStage options sessions x → IsSoundStage options sessions (stage_after_shrink x) }
{}

/// The collection for a promise gives exactly as many blocks as were promised.
pub fn a_collection_gives_what_was_promised()
    ensures law { (options : Options) (sessions : ℕ) (x : Stage) (s : ℕ) (promise : Promise)
        → IsSoundStage options sessions x → IsTrue (has_session x.table s)
        → (session_of x.table s).promise ≡ Some promise → collected_by x.space s ≡ []
        → length (collected_by (after_collection s promise.blocks x.space) s) ≡ promise.blocks }
{}
