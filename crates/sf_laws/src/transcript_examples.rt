//! Examples of whole orders and right transcripts.
ghost use Rattle.std.specs.Prelude.{[], ◌∷◌, map};
ghost use Rattle.sf_types.specs.Limits.{standard_options};
ghost use Rattle.sf_types.specs.Orders.Histories.{IsWhole};
ghost use Rattle.sf_types.specs.Orders.Transcripts.{IsRight};
ghost use Rattle.sf_laws.specs.TranscriptExamples.{first_calls, first_history, first_transcript};

/// The first path's order is whole, and its transcript is right.
pub fn the_first_path()
    ensures whole { IsWhole standard_options (first_calls ∷ []) (map (λ e. e.token) first_history) }
    ensures right { IsRight standard_options (first_calls ∷ []) first_transcript }
{}
