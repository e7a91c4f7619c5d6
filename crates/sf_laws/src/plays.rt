//! Plays of scripts.
ghost use Rattle.std.specs.Prelude.{◌≡◌, ℕ, ◌+◌, ◌-◌, List, length, true};
ghost use Rattle.sf_types.specs.declared.call.Call.{Call};
ghost use Rattle.sf_types.specs.declared.options.Options.{Options};
ghost use Rattle.sf_types.specs.Table.Versions.{commit_count};
ghost use Rattle.sf_types.specs.Space.Placings.{all_blocks};
ghost use Rattle.sf_types.specs.Space.Use.{free_of};
ghost use Rattle.sf_types.specs.Orders.RowEnds.{row_ends_of};
ghost use Rattle.sf_types.specs.Orders.Histories.{IsWhole};
ghost use Rattle.sf_types.specs.Orders.Transcripts.{IsRight, all_replies};
ghost use Rattle.sf_types.specs.Play.Turns.{Playing, Turn, start_of, after_turn, after_turns, rounds, have_all_ended, play_for, enough_rounds, play_end, play_order, play_places};
ghost use Rattle.sf_laws.specs.PlayTranscripts.{play_transcript};
ghost use Rattle.sf_laws.specs.Plays.{AreWithoutEnd, IsTurnOf, AreTurnsOf, IsSoundPlay, without_shrinks};

/// After every list of turns of sessions, reclaims and shrinks the stage is sound, and each session keeps to the script: the
/// calls that it ended and those that it has left are its calls, in order, with its End. Each turn keeps this.
pub fn a_play_keeps_to_its_script()
    ensures opening { (options : Options) (calls : List (List Call))
        → AreWithoutEnd calls → IsSoundPlay options calls (start_of options calls) }
    ensures turn { (options : Options) (calls : List (List Call)) (p : Playing) (turn : Turn)
        → AreWithoutEnd calls → IsTurnOf (length calls) turn
        → IsSoundPlay options calls p → IsSoundPlay options calls (after_turn turn p) }
    ensures turns { (options : Options) (calls : List (List Call)) (turns : List Turn)
        → AreWithoutEnd calls → AreTurnsOf (length calls) turns
        → IsSoundPlay options calls (after_turns turns (start_of options calls)) }
{}

/// The rounds of a play end all calls, whatever the schedule, so its order is whole for the script.
pub fn the_order_of_a_play_is_whole()
    ensures ended { (options : Options) (calls : List (List Call)) (schedule : List Turn)
        → AreWithoutEnd calls → AreTurnsOf (length calls) schedule
        → have_all_ended (play_for options calls schedule (enough_rounds calls)) ≡ true }
    ensures whole { (options : Options) (calls : List (List Call)) (schedule : List Turn)
        → AreWithoutEnd calls → AreTurnsOf (length calls) schedule
        → IsWhole options calls (play_order options calls schedule) }
{}

/// Rounds after the end change neither the history nor the places. So a play that stops after the first round, or after any
/// other, at whose end all sessions have ended has the history and the places of the play with enough rounds.
pub fn rounds_after_the_end_change_nothing()
    ensures round_history { (options : Options) (calls : List (List Call)) (p : Playing) (n : ℕ)
        → AreWithoutEnd calls → IsSoundPlay options calls p → have_all_ended p ≡ true
        → (after_turns (rounds (length calls) n) p).stage.history ≡ p.stage.history }
    ensures round_places { (options : Options) (calls : List (List Call)) (p : Playing) (n : ℕ)
        → AreWithoutEnd calls → IsSoundPlay options calls p → have_all_ended p ≡ true
        → (after_turns (rounds (length calls) n) p).stage.space.places ≡ p.stage.space.places }
    ensures stop_history { (options : Options) (calls : List (List Call)) (schedule : List Turn) (n : ℕ)
        → AreWithoutEnd calls → AreTurnsOf (length calls) schedule
        → have_all_ended (play_for options calls schedule n) ≡ true
        → (play_for options calls schedule n).stage.history ≡ (play_end options calls schedule).history }
    ensures stop_places { (options : Options) (calls : List (List Call)) (schedule : List Turn) (n : ℕ)
        → AreWithoutEnd calls → AreTurnsOf (length calls) schedule
        → have_all_ended (play_for options calls schedule n) ≡ true
        → (play_for options calls schedule n).stage.space.places ≡ play_places options calls schedule }
{}

/// The transcript of a play is right, for the options, the calls and the schedule of every script. The number of its free line
/// is the number of blocks that are free at its end, where no promise stands.
pub fn the_transcript_of_a_play_is_right()
    ensures right { (options : Options) (calls : List (List Call)) (schedule : List Turn)
        → AreWithoutEnd calls → AreTurnsOf (length calls) schedule
        → IsRight options calls (play_transcript options calls schedule) }
    ensures free { (options : Options) (calls : List (List Call)) (schedule : List Turn)
        → AreWithoutEnd calls → AreTurnsOf (length calls) schedule
        → free_of (play_end options calls schedule).table ≡ options.capacity - length (all_blocks (play_places options calls schedule)) }
{}

/// Shrinks change nothing but where blocks stand. After every list of turns the history and the table are those of the turns
/// without the shrinks. So a play has the same order, replies, rows, number of commits and number of free blocks without the
/// shrinks of its schedule.
pub fn shrinks_change_places_alone()
    ensures turns_history { (options : Options) (calls : List (List Call)) (turns : List Turn)
        → AreWithoutEnd calls → AreTurnsOf (length calls) turns
        → (after_turns (without_shrinks turns) (start_of options calls)).stage.history ≡ (after_turns turns (start_of options calls)).stage.history }
    ensures turns_table { (options : Options) (calls : List (List Call)) (turns : List Turn)
        → AreWithoutEnd calls → AreTurnsOf (length calls) turns
        → (after_turns (without_shrinks turns) (start_of options calls)).stage.table ≡ (after_turns turns (start_of options calls)).stage.table }
    ensures order { (options : Options) (calls : List (List Call)) (schedule : List Turn)
        → AreWithoutEnd calls → AreTurnsOf (length calls) schedule
        → play_order options calls (without_shrinks schedule) ≡ play_order options calls schedule }
    ensures replies { (options : Options) (calls : List (List Call)) (schedule : List Turn)
        → AreWithoutEnd calls → AreTurnsOf (length calls) schedule
        → all_replies options (length calls) (play_end options calls (without_shrinks schedule)).history ≡ all_replies options (length calls) (play_end options calls schedule).history }
    ensures rows { (options : Options) (calls : List (List Call)) (schedule : List Turn)
        → AreWithoutEnd calls → AreTurnsOf (length calls) schedule
        → row_ends_of (play_end options calls (without_shrinks schedule)).table ≡ row_ends_of (play_end options calls schedule).table }
    ensures commits { (options : Options) (calls : List (List Call)) (schedule : List Turn)
        → AreWithoutEnd calls → AreTurnsOf (length calls) schedule
        → commit_count (play_end options calls (without_shrinks schedule)).table ≡ commit_count (play_end options calls schedule).table }
    ensures free { (options : Options) (calls : List (List Call)) (schedule : List Turn)
        → AreWithoutEnd calls → AreTurnsOf (length calls) schedule
        → options.capacity - length (all_blocks (play_places options calls (without_shrinks schedule))) ≡ options.capacity - length (all_blocks (play_places options calls schedule)) }
{}
