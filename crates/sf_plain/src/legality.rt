//! Which entries are legal.
ghost use Rattle.std.specs.Prelude.{None, Some};
ghost use Rattle.std.specs.Bool.{Decides};
ghost use Rattle.std.specs.Option.{option_copied};
ghost use Rattle.sf_types.specs.Orders.Histories.{IsLegalBeside};

use crate::same_calls::same_call;
use sf_plain_table::Promise;
use sf_types::{Call, Kind};

// Whether an entry of this kind and call is legal beside a standing promise.
fn is_legal_promised(promise: &Promise, due: bool, kind: Kind, call: &Call) -> bool
    ensures { Decides result (IsLegalBeside (Some promise.now) due kind call.now) }
{
    match kind {
        Kind::Call => same_call(call, &promise.call),
        Kind::Promise => false,
        Kind::Cancel => same_call(call, &promise.call),
    }
}

// Whether an entry of this kind, of a call that is due or not, is legal where no promise stands.
fn is_legal_free(due: bool, kind: Kind, call: &Call) -> bool
    ensures { Decides result (IsLegalBeside None due kind call.now) }
{
    match kind {
        Kind::Call => !due,
        Kind::Promise => due,
        Kind::Cancel => false,
    }
}

/// Whether an entry of this kind, of a call that is due or not, is legal beside a session's promise.
pub fn is_legal_beside(promise: Option<&Promise>, due: bool, kind: Kind, call: &Call) -> bool
    ensures { Decides result (IsLegalBeside (option_copied promise.entry) due kind call.now) }
{
    match promise {
        Some(promise) => is_legal_promised(promise, due, kind, call),
        None => is_legal_free(due, kind, call),
    }
}
