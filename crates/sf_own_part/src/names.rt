//! The kinds of calls, and the locators that a writing call names.
ghost use Rattle.std.specs.Prelude.{◌≡◌};
ghost use Rattle.std.specs.Option.{option_copied};
ghost use Rattle.sf_types.specs.Calls.WritingCalls.{written_name, source_name};
ghost use Rattle.sf_types.specs.Halves.Own.{is_event};

use sf_types::{Call, LocName};

/// The name of the locator through which a call writes. None where it is no writing call.
pub fn written_name(call: &Call) -> Option<&LocName>
    ensures { option_copied result ≡ written_name call.now }
{
    match call {
        Call::Write { at, .. } => Some(at),
        Call::WriteAppend { at, .. } => Some(at),
        Call::Append { at, .. } => Some(at),
        Call::Copy { at, .. } => Some(at),
        Call::Erase { at, .. } => Some(at),
        Call::Trim { at, .. } => Some(at),
        Call::FragInsert { at, .. } => Some(at),
        Call::FragDelete { at, .. } => Some(at),
        Call::FragMove { at, .. } => Some(at),
        Call::FragReplace { at, .. } => Some(at),
        Call::SetOptions { at, .. } => Some(at),
        _ => None,
    }
}

/// The name of the source locator of Append and Copy. None for other calls.
pub fn source_name(call: &Call) -> Option<&LocName>
    ensures { option_copied result ≡ source_name call.now }
{
    match call {
        Call::Append { from, .. } => Some(from),
        Call::Copy { from, .. } => Some(from),
        _ => None,
    }
}

/// Whether a call is an event: a row call, RollbackTo, or an end of a transaction or of the session.
pub fn is_event(call: &Call) -> bool
    ensures { result ≡ is_event call.now }
{
    match call {
        Call::Insert { .. } => true,
        Call::Delete { .. } => true,
        Call::Lock { .. } => true,
        Call::Select { .. } => true,
        Call::SelectAsOf { .. } => true,
        Call::RollbackTo { .. } => true,
        Call::Commit => true,
        Call::Rollback => true,
        Call::End => true,
        _ => false,
    }
}
