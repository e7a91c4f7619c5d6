//! What a store begins with.
ghost use Rattle.std.specs.Prelude.{◌≡◌, replicate, IfOk};
ghost use Rattle.sf_types.specs.Halves.Asks.{new_kept};
ghost use Rattle.sf_store_half.specs.Fields.{session_field};

use crate::session_fields::SessionField;
use sf_types::Mem;
use std::alloc::Global;

// So many sessions that have done nothing yet.
pub fn new_sessions(alloc: Global, sessions: u16) -> Mem<Vec<SessionField>>
    ensures { IfOk result (λ fields. fields.items ≡ replicate sessions (session_field new_kept)) }
{
    let mut fields = Vec::new(alloc);
    for _ in 0..sessions {
        fields.push(SessionField {
            is_open: false,
            has_ended: false,
            promise: None,
        })?;
    }
    Ok(fields)
}
