//! The locators that a writing call names.
ghost use Rattle.std.specs.Prelude.{◌≡◌};
ghost use Rattle.std.specs.Option.{option_copied};
ghost use Rattle.sf_types.specs.Calls.WritingCalls.{written_name, source_name};

use sf_types::{Call, LocName};

/// The name of the locator through which a call writes. None where it is no writing call.
pub fn written_name(call: &Call) -> Option<&LocName>
    ensures { option_copied result ≡ written_name call.now }
{
    match call {
        Call::Write { at, .. } => Some(at),
        Call::WriteAppend { at, .. } => Some(at),
        Call::Append { at, .. } => Some(at),
        Call::Copy { at, .. } => Some(at),
        Call::Erase { at, .. } => Some(at),
        Call::Trim { at, .. } => Some(at),
        Call::FragInsert { at, .. } => Some(at),
        Call::FragDelete { at, .. } => Some(at),
        Call::FragMove { at, .. } => Some(at),
        Call::FragReplace { at, .. } => Some(at),
        Call::SetOptions { at, .. } => Some(at),
        _ => None,
    }
}

/// The name of the source locator of Append and Copy. None for other calls.
pub fn source_name(call: &Call) -> Option<&LocName>
    ensures { option_copied result ≡ source_name call.now }
{
    match call {
        Call::Append { from, .. } => Some(from),
        Call::Copy { from, .. } => Some(from),
        _ => None,
    }
}
