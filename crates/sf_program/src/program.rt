//! The top call.
ghost use Rattle.std.specs.Prelude.{◌≡◌, ◌≢◌, ◌++◌, ◌≤◌, ◌<◌, [], ◌∷◌, length, IsTrue, Some, IfSome, IfOk, IfErr, OnOk, false, codes};
ghost use Rattle.std.specs.Fmt.{decimal};
ghost use Rattle.sf_outside.specs.Causes.{EndsAtFault};
ghost use Rattle.sf_outside.specs.Sink.{GrowsBy};
ghost use Rattle.sf_script.specs.Parts.{IsScript};
ghost use Rattle.sf_script.specs.Scripts.{script_of};
ghost use Rattle.sf_plain_store.specs.Plays.{transcript_of};
ghost use Rattle.sf_program.specs.declared.status.Status.TheVariants as status;
ghost use Rattle.sf_program.specs.Inputs.{IsReadAs};
ghost use Rattle.sf_program.specs.Outputs.{GrowsByFront};
ghost use Rattle.sf_types.specs.Orders.Transcripts.{line};
ghost use Rattle.sf_program.specs.Program.{is_play, usage_line, refusal_line, status_of, output_of, due_status, due_output, IsOfWords, IsStop, IsDue, IsPlayedOut, IsRefusedOut, IsCutOff};

use crate::input::{ReadError, read_input};
use crate::output::write_output;
use crate::status::Status;
use sf_outside::{Sink, Source};
use sf_plain_store::PlainStore;
use sf_script::{Script, ScriptFault, parse};
use sf_transcript::render;
use sf_types::{Mem, push_decimal};
use std::alloc::Global;

// Whether the words are the one word `play`.
fn is_play(words: &[String]) -> bool
    ensures { result ≡ is_play words.now }
{
    match words {
        [word] => word.as_bytes() == b"play".as_slice(),
        _ => false,
    }
}

// The usage line.
fn usage(alloc: Global) -> Mem<Vec<u8>>
    ensures { IfOk result (λ text. text.items ≡ usage_line) }
{
    let mut text = Vec::new(alloc);
    text.extend_from_slice(
        b"usage: securefiles_cli play | run | check | bench SEED SESSIONS CALLS\n",
    )?;
    Ok(text)
}

// The line of a refused script.
fn refusal(alloc: Global, fault: &ScriptFault) -> Mem<Vec<u8>>
    ensures { IfOk result (λ text. text.items ≡ refusal_line fault.now) }
{
    let mut text = Vec::new(alloc);
    text.extend_from_slice(b"script refused: line ")?;
    push_decimal(&mut text, u64::from(fault.line))?;
    text.extend_from_slice(b": ")?;
    text.extend_from_slice(fault.reason.word().as_bytes())?;
    text.extend_from_slice(b"\n")?;
    Ok(text)
}

/// A status and the output that belongs to it.
#[derive(Drop)]
pub struct Answer {
    status: Status,
    text: Vec<u8>,
}

// The transcript of a script's play. The Book over which it was played is not needed any more.
fn transcript(alloc: Global, script: &Script) -> Mem<Vec<u8>>
    ensures { IfOk result (λ text. text.items ≡ transcript_of script.now) }
{
    let (played, _) = PlainStore::play(alloc, script)?;
    render(alloc, &played)
}

// The answer to an input under `play`.
fn answer_play(alloc: Global, input: &[u8]) -> Mem<Answer>
    ensures status { IfOk result (λ answer. answer.status ≡ status_of (script_of input.now)) }
    ensures text { IfOk result (λ answer. answer.text.items ≡ output_of (script_of input.now)) }
    ensures script { IfOk result (λ _. IfOk (script_of input.now) IsScript) }
{
    match parse(alloc, input)? {
        Ok(script) => Ok(Answer {
            status: Status::Done,
            text: transcript(alloc, &script)?,
        }),
        Err(fault) => Ok(Answer {
            status: Status::ScriptRefused,
            text: refusal(alloc, &fault)?,
        }),
    }
}

// The answer to any words, for which the input is read where they are `play`. None is given for want of memory or
// where the source failed; the status says which.
fn answer_words<S: Source>(
    alloc: Global,
    words: &[String],
    source: &mut S,
) -> Result<Answer, Status>
    ensures due { IfSome (S.left source.old) (λ input. IfOk result (λ answer.
        (answer.status ≡ due_status words.now input) × (answer.text.items ≡ due_output words.now input))) }
    ensures words { IfOk result (λ answer. IsOfWords words.now answer.status answer.text.items) }
    ensures ended { IfSome (S.left source.old) (λ input. IfOk result (λ _.
        IsTrue (is_play words.now) → IsReadAs (script_of input) input (S.left source.new))) }
    ensures script { IfSome (S.left source.old) (λ input. IfOk result (λ _.
        IsTrue (is_play words.now) → IfOk (script_of input) IsScript)) }
    ensures unread { is_play words.now ≡ false → source.new ≡ source.old }
    ensures stopped { IfErr result (IsStop words.now (S.faults source.old) (S.faults source.new) (S.has_failed source.new)) }
    ensures later { S.faults source.old ≤ S.faults source.new }
    ensures steady { OnOk result (S.faults source.new ≡ S.faults source.old) }
{
    if !is_play(words) {
        return Ok(Answer {
            status: Status::Usage,
            text: usage(alloc)?,
        });
    }
    let input = match read_input(alloc, source) {
        Ok(input) => input,
        Err(ReadError::Memory) => return Err(Status::OutOfMemory),
        Err(ReadError::Failed) => return Err(Status::ReadFault),
    };
    let answer = answer_play(alloc, &input)?;
    Ok(answer)
}

/// Runs the program on its words: reads the source where they ask for it, and writes the answer to the sink. It waits
/// for nobody and returns.
pub fn securefiles_plain<S: Source, K: Sink>(
    alloc: Global,
    words: &[String],
    source: &mut S,
    sink: &mut K,
) -> Status
    // The headline for `play`.
    ensures done { result ≡ status.Done → IfSome (S.left source.old) (λ input.
        IsPlayedOut input (S.left source.new) (K.taken sink.old) (K.taken sink.new)) }
    ensures done_words { result ≡ status.Done → IsTrue (is_play words.now) }

    // Why a script is refused, how far it was read, and what is written then.
    ensures script_refused { result ≡ status.ScriptRefused → IsTrue (is_play words.now) × IfSome (S.left source.old) (λ input.
        IsRefusedOut input (S.left source.new) (K.taken sink.old) (K.taken sink.new)) }

    // The words are no command. The source is then as it was.
    ensures usage { result ≡ status.Usage → (is_play words.now ≡ false) × GrowsBy (K.taken sink.old) (K.taken sink.new) usage_line }
    ensures unread { is_play words.now ≡ false → source.new ≡ source.old }

    // The program ends at the first call that fails: just one failed, it was the last, and what was written then.
    ensures read_fault { result ≡ status.ReadFault →
        IsTrue (is_play words.now) × EndsAtFault (S.faults source.old) (S.faults source.new) (S.has_failed source.new) × (sink.new ≡ sink.old) }
    ensures write_fault { result ≡ status.WriteFault →
        EndsAtFault (K.faults sink.old) (K.faults sink.new) (K.has_failed sink.new) }
    ensures output_front { result ≡ status.WriteFault → IsTrue (is_play words.now) → IfSome (S.left source.old) (λ input.
        IsCutOff input (S.left source.new) (K.taken sink.old) (K.taken sink.new)) }
    ensures usage_front { result ≡ status.WriteFault → is_play words.now ≡ false → GrowsByFront (K.taken sink.old) (K.taken sink.new) usage_line }
    ensures memory { result ≡ status.OutOfMemory → sink.new ≡ sink.old }

    // Every status has its cause.
    ensures due { IfSome (S.left source.old) (λ input. IsDue result (due_status words.now input)) }
    ensures later { (S.faults source.old ≤ S.faults source.new) × (K.faults sink.old ≤ K.faults sink.new) }

    // With another status than the fault of the source, or of the sink, no call of it failed.
    ensures source_never_failed { result ≢ status.ReadFault → S.faults source.new ≡ S.faults source.old }
    ensures sink_never_failed { result ≢ status.WriteFault → K.faults sink.new ≡ K.faults sink.old }
{
    let answer = match answer_words(alloc, words, source) {
        Ok(answer) => answer,
        Err(status) => return status,
    };
    match write_output(sink, &answer.text) {
        Ok(()) => answer.status,
        Err(_) => Status::WriteFault,
    }
}
