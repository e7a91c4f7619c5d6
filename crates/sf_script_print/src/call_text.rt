//! The text of a call.
ghost use Rattle.std.specs.Prelude.{◌≡◌, ◌∷◌, ◌++◌, [], OnOk, map, codes};
ghost use Rattle.sf_script_print.specs.PrintedCalls.{plain, with_payload, on_or_off, call_text, printed_text, printed_call};

use crate::pieces::{push_numbers, push_payload, push_word, push_words};
use sf_types::{Call, Mem, push_decimal};

// `on` or `off`
fn on_or_off(share: bool) -> &'static [u8]
    ensures { result.now ≡ on_or_off share }
{
    if share { b"on" } else { b"off" }
}

// Appends a call without a payload.
#[tactic(auto, unfolding(crate::specs::PrintedCalls::printed_text))]
fn push_plain(text: &mut Vec<u8>, word: &[u8], names: &[&[u8]], numbers: &[u64]) -> Mem<()>
    ensures { OnOk result (text.new.items ≡ text.old.items ++ printed_text (plain word.now (map (λ name. name.now) names.now) numbers.now)) }
{
    push_word(text, word)?;
    push_words(text, names)?;
    push_numbers(text, numbers)
}

// Appends a call with a payload.
#[tactic(auto, unfolding(crate::specs::PrintedCalls::printed_text))]
fn push_with_payload(
    text: &mut Vec<u8>,
    word: &[u8],
    at: &[u8],
    numbers: &[u64],
    bytes: &[u8],
) -> Mem<()>
    ensures { OnOk result (text.new.items ≡ text.old.items ++ printed_text (with_payload word.now (at.now ∷ []) numbers.now bytes.now)) }
{
    push_word(text, word)?;
    push_word(text, at)?;
    push_numbers(text, numbers)?;
    text.extend_from_slice(b" ")?;
    push_payload(text, bytes)
}

// Appends a call that turns sharing on or off.
#[tactic(auto, unfolding(crate::specs::PrintedCalls::printed_text))]
fn push_setoptions(text: &mut Vec<u8>, at: &[u8], share: bool) -> Mem<()>
    ensures { OnOk result (text.new.items ≡ text.old.items ++ printed_text (plain (codes "setoptions") (at.now ∷ codes "dedup" ∷ on_or_off share ∷ []) [])) }
{
    push_word(text, b"setoptions")?;
    push_word(text, at)?;
    push_word(text, b"dedup")?;
    push_word(text, on_or_off(share))
}

// Appends a call of three words.
#[tactic(auto, unfolding(crate::specs::PrintedCalls::printed_text))]
fn push_three(text: &mut Vec<u8>, word: &[u8], second: &[u8], third: &[u8]) -> Mem<()>
    ensures { OnOk result (text.new.items ≡ text.old.items ++ printed_text (plain word.now (second.now ∷ third.now ∷ []) [])) }
{
    push_word(text, word)?;
    push_word(text, second)?;
    push_word(text, third)
}

// Appends a call.
fn push_call_text(text: &mut Vec<u8>, call: &Call) -> Mem<()>
    ensures { OnOk result (text.new.items ≡ text.old.items ++ printed_text (call_text call.now)) }
{
    match call {
        Call::Insert { row } => push_plain(text, b"insert", &[row.as_bytes()], &[]),
        Call::Delete { row } => push_plain(text, b"delete", &[row.as_bytes()], &[]),
        Call::Lock { to, row } => push_plain(text, b"lock", &[to.as_bytes(), row.as_bytes()], &[]),
        Call::Select { to, row } => {
            push_plain(text, b"select", &[to.as_bytes(), row.as_bytes()], &[])
        }
        Call::SelectAsOf { to, row, commit } => {
            push_plain(text, b"asof", &[to.as_bytes(), row.as_bytes()], &[*commit])
        }
        Call::Assign { to, from } => {
            push_plain(text, b"assign", &[to.as_bytes(), from.as_bytes()], &[])
        }
        Call::Free { at } => push_plain(text, b"free", &[at.as_bytes()], &[]),
        Call::Length { at } => push_plain(text, b"length", &[at.as_bytes()], &[]),
        Call::Read { at, amount, offset } => {
            push_plain(text, b"read", &[at.as_bytes()], &[*amount, *offset])
        }
        Call::Instr {
            at,
            pattern,
            offset,
        } => push_with_payload(
            text,
            b"instr",
            at.as_bytes(),
            &[*offset],
            pattern.as_bytes(),
        ),
        Call::Compare {
            left,
            right,
            amount,
            left_offset,
            right_offset,
        } => push_plain(
            text,
            b"compare",
            &[left.as_bytes(), right.as_bytes()],
            &[*amount, *left_offset, *right_offset],
        ),
        Call::Write { at, offset, bytes } => {
            push_with_payload(text, b"write", at.as_bytes(), &[*offset], bytes.as_bytes())
        }
        Call::WriteAppend { at, bytes } => {
            push_with_payload(text, b"writeappend", at.as_bytes(), &[], bytes.as_bytes())
        }
        Call::Append { at, from } => {
            push_plain(text, b"append", &[at.as_bytes(), from.as_bytes()], &[])
        }
        Call::Copy {
            at,
            from,
            amount,
            to_offset,
            from_offset,
        } => push_plain(
            text,
            b"copy",
            &[at.as_bytes(), from.as_bytes()],
            &[*amount, *to_offset, *from_offset],
        ),
        Call::Erase { at, amount, offset } => {
            push_plain(text, b"erase", &[at.as_bytes()], &[*amount, *offset])
        }
        Call::Trim { at, length } => push_plain(text, b"trim", &[at.as_bytes()], &[*length]),
        Call::FragInsert { at, offset, bytes } => {
            push_with_payload(
                text,
                b"fraginsert",
                at.as_bytes(),
                &[*offset],
                bytes.as_bytes(),
            )
        }
        Call::FragDelete { at, amount, offset } => {
            push_plain(text, b"fragdelete", &[at.as_bytes()], &[*amount, *offset])
        }
        Call::FragMove {
            at,
            amount,
            from_offset,
            to_offset,
        } => push_plain(
            text,
            b"fragmove",
            &[at.as_bytes()],
            &[*amount, *from_offset, *to_offset],
        ),
        Call::FragReplace {
            at,
            old_amount,
            offset,
            bytes,
        } => push_with_payload(
            text,
            b"fragreplace",
            at.as_bytes(),
            &[*old_amount, *offset],
            bytes.as_bytes(),
        ),
        Call::SetOptions { at, share } => push_setoptions(text, at.as_bytes(), *share),
        Call::Savepoint { name } => push_plain(text, b"savepoint", &[name.as_bytes()], &[]),
        Call::RollbackTo { name } => push_three(text, b"rollback", b"to", name.as_bytes()),
        Call::Commit => push_plain(text, b"commit", &[], &[]),
        Call::Rollback => push_plain(text, b"rollback", &[], &[]),
        Call::End => push_plain(text, b"", &[], &[]),
    }
}

// Appends a call's line.
#[tactic(auto, unfolding(crate::specs::PrintedCalls::printed_call))]
pub fn push_call(text: &mut Vec<u8>, session: u64, call: &Call) -> Mem<()>
    ensures { OnOk result (text.new.items ≡ text.old.items ++ printed_call session call.now) }
{
    push_decimal(text, session)?;
    text.extend_from_slice(b":")?;
    push_call_text(text, call)?;
    text.extend_from_slice(b"\n")?;
    Ok(())
}
