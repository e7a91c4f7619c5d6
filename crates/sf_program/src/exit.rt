//! How the process ends.
ghost use Rattle.std.specs.Prelude.{◌≡◌, ◌<◌, IsTrue, IfSome, IfOk, IfErr};
ghost use Rattle.std.specs.Process.{exit_status};
ghost use Rattle.sf_program.specs.Exits.{ExitsDue};
ghost use Rattle.sf_program.specs.Program.{is_play, due_status, IsPlayedOut};
ghost use Rattle.sf_program.specs.StatusNumbers.{number_of};

use crate::program::securefiles_plain;
use crate::status::Status;
use sf_outside::{Sink, Source};
use std::alloc::Global;
use std::process::ExitCode;

/// What the process ends with at a status.
pub fn exit_code(status: Status) -> ExitCode
    ensures { exit_status result ≡ number_of status }
{
    ExitCode::from(status.number())
}

/// Runs the program and says how the process ends: on its words, or at once with the status that stands in their place.
pub fn securefiles<S: Source, K: Sink>(
    alloc: Global,
    words: Result<Vec<String>, Status>,
    source: &mut S,
    sink: &mut K,
) -> ExitCode
    // The process ends with the number of the status that the words and the input are due, or of a fault.
    ensures due { IfOk words (λ given. IfSome (S.left source.old) (λ input.
        ExitsDue (exit_status result) (due_status given.items input))) }

    // The process ends with 0 only where the source held a script and the sink took its whole transcript.
    ensures done { exit_status result ≡ 0 → IfOk words (λ given. IsTrue (is_play given.items) × IfSome (S.left source.old) (λ input.
        IsPlayedOut input (S.left source.new) (K.taken sink.old) (K.taken sink.new))) }

    // Without words nothing is read and nothing is written.
    ensures number { IfErr words (λ status. exit_status result ≡ number_of status) }
    ensures unread { IfErr words (λ _. source.new ≡ source.old) }
    ensures unwritten { IfErr words (λ _. sink.new ≡ sink.old) }
{
    match words {
        Ok(words) => exit_code(securefiles_plain(alloc, &words, source, sink)),
        Err(status) => exit_code(status),
    }
}
