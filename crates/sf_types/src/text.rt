//! The texts of replies. The texts are this project's own.
ghost use Rattle.std.specs.Prelude.{◌≡◌, ◌++◌, OnOk, OnErr, IfOk};
ghost use Rattle.std.specs.Fmt.{decimal};
ghost use Rattle.hex.specs.Hex.{encode_lower};
ghost use Rattle.sf_types.specs.Orders.Texts.{fault_words, fault_text, bytes_text, equal_text, text_of_reply};

use crate::blob::Blob;
use crate::memory::Mem;
use crate::reply::{Fault, Reply};
use crate::sum::sum_of;
use std::alloc::Global;

/// The most bytes of a reply that are printed whole.
const PRINTED_BYTES: usize = 128;

/// Appends a number in decimal digits. For want of memory the text is as before.
pub fn push_decimal(text: &mut Vec<u8>, number: u64) -> Mem<()>
    ensures ok { OnOk result (text.new.items ≡ text.old.items ++ decimal number) }
    ensures err { OnErr result (text.new.items ≡ text.old.items) }
{
    let digits = number.to_string(*text.allocator())?;
    text.extend_from_slice(digits.as_bytes())?;
    Ok(())
}

/// Appends bytes as lower-case hex digits. For want of memory the text is as before.
pub fn push_hex(text: &mut Vec<u8>, bytes: &[u8]) -> Mem<()>
    ensures ok { OnOk result (text.new.items ≡ text.old.items ++ encode_lower bytes.now) }
    ensures err { OnErr result (text.new.items ≡ text.old.items) }
{
    let digits = hex::encode(*text.allocator(), bytes)?;
    text.extend_from_slice(digits.as_bytes())?;
    Ok(())
}

fn push_bytes(text: &mut Vec<u8>, bytes: &[u8]) -> Mem<()>
    ensures { OnOk result (text.new.items ≡ text.old.items ++ bytes_text bytes.now) }
{
    if bytes.len() <= PRINTED_BYTES {
        text.extend_from_slice(b"x")?;
        return push_hex(text, bytes);
    }
    text.extend_from_slice(b"bytes ")?;
    push_decimal(text, bytes.len() as u64)?;
    text.extend_from_slice(b" ")?;
    push_hex(text, sum_of(bytes).as_bytes())
}

fn push_equal(text: &mut Vec<u8>, is_equal: bool) -> Mem<()>
    ensures { OnOk result (text.new.items ≡ text.old.items ++ equal_text is_equal) }
{
    if is_equal {
        text.extend_from_slice(b"equal")?;
    } else {
        text.extend_from_slice(b"differ")?;
    }
    Ok(())
}

// The words of a refusal, up to its numbers.
fn words_of(fault: &Fault) -> &'static [u8]
    ensures { result.now ≡ fault_words fault.now }
{
    match fault {
        Fault::UnknownLocator => b"unknown-locator",
        Fault::TooManyLocators => b"too-many-locators",
        Fault::Lost => b"lost",
        Fault::ReadOnly => b"read-only",
        Fault::SpansTransactions => b"spans-transactions 22990",
        Fault::RowNotLocked => b"row-not-locked 22920",
        Fault::NoSuchRow => b"no-such-row",
        Fault::Duplicate => b"duplicate 1",
        Fault::Busy => b"busy 54",
        Fault::ArgOutOfRange => b"out-of-range 21560",
        Fault::NoData => b"no-data 1403",
        Fault::TrimPastEnd => b"trim-past-end 22926",
        Fault::SourcePastEnd => b"source-past-end 22994",
        Fault::TooLong => b"too-long",
        Fault::TooOld => b"too-old 22924",
        Fault::FutureCommit => b"future-commit",
        Fault::TooManySavepoints => b"too-many-savepoints",
        Fault::NoSavepoint => b"no-savepoint",
        Fault::NoSpace { .. } => b"no-space 1691",
    }
}

fn push_fault(text: &mut Vec<u8>, fault: &Fault) -> Mem<()>
    ensures { OnOk result (text.new.items ≡ text.old.items ++ fault_text fault.now) }
{
    text.extend_from_slice(words_of(fault))?;
    if let Fault::NoSpace { wanted, free } = fault {
        text.extend_from_slice(b" wanted ")?;
        push_decimal(text, *wanted)?;
        text.extend_from_slice(b" free ")?;
        push_decimal(text, *free)?;
    }
    Ok(())
}

// Appends the text of a reply. For want of memory a front of it may stand behind the text.
fn push_parts(text: &mut Vec<u8>, reply: &Reply) -> Mem<()>
    ensures { OnOk result (text.new.items ≡ text.old.items ++ text_of_reply reply.now) }
{
    match reply {
        Reply::Done => text.extend_from_slice(b"ok")?,
        Reply::Number(number) => push_decimal(text, *number)?,
        Reply::Bytes(bytes) => push_bytes(text, bytes.as_bytes())?,
        Reply::Equal(is_equal) => push_equal(text, *is_equal)?,
        Reply::Committed(number) => {
            text.extend_from_slice(b"commit ")?;
            push_decimal(text, *number)?;
        }
        Reply::Ended => text.extend_from_slice(b"end")?,
        Reply::Refused(fault) => {
            text.extend_from_slice(b"refused ")?;
            push_fault(text, fault)?;
        }
    }
    Ok(())
}

/// The text of a reply, without a line feed.
pub fn reply_text(alloc: Global, reply: &Reply) -> Mem<Blob>
    ensures { IfOk result (λ text. text ≡ text_of_reply reply.now) }
{
    let mut text = Vec::new(alloc);
    push_parts(&mut text, reply)?;
    Blob::from_vec(text)
}

/// Appends the text of a reply, without a line feed. For want of memory the text is as before.
pub fn push_reply(text: &mut Vec<u8>, reply: &Reply) -> Mem<()>
    ensures ok { OnOk result (text.new.items ≡ text.old.items ++ text_of_reply reply.now) }
    ensures err { OnErr result (text.new.items ≡ text.old.items) }
{
    let own = reply_text(*text.allocator(), reply)?;
    text.extend_from_slice(own.as_bytes())?;
    Ok(())
}
