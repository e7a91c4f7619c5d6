//! What a store keeps of a session beside births.
ghost use Rattle.std.specs.Prelude.{◌≡◌, ◌-◌, ◌≤◌, None, Some, length, slice_get, slice_set, unwrap_or};
ghost use Rattle.sf_types.specs.Halves.Asks.{new_kept};
ghost use Rattle.sf_store_half.specs.Fields.{session_field};
ghost use Rattle.sf_store_half.specs.Inside.Fields.{promised_blocks};

use sf_types::Call;

/// A standing promise: the call for which it stands, and the number of promised blocks.
#[derive(Drop)]
pub struct Promised {
    pub call: Call,
    pub blocks: u64,
}

/// Whether a transaction of a session is open, whether the session has ended, and its standing promise.
#[derive(Drop)]
pub struct SessionField {
    pub is_open: bool,
    pub has_ended: bool,
    pub promise: Option<Promised>,
}

// Takes the promise of a session away, which is one of these.
pub fn take_promise(fields: &mut Vec<SessionField>, session: u16) -> Option<Promised>
    requires low { 1 ≤ session }
    requires high { session ≤ length fields.old.items }
    ensures promise { result ≡ (unwrap_or (slice_get fields.old.items (session - 1)) (session_field new_kept)).promise }
    ensures fields { fields.new.items ≡ slice_set fields.old.items (session - 1) (record (unwrap_or (slice_get fields.old.items (session - 1)) (session_field new_kept)) { promise = None }) }
{
    fields[usize::from(session) - 1].promise.take()
}

// What is kept of a session, which is one of these.
pub fn field_of(fields: &[SessionField], session: u16) -> &SessionField
    requires low { 1 ≤ session }
    requires high { session ≤ length fields.now }
    ensures { result.now ≡ unwrap_or (slice_get fields.now (session - 1)) (session_field new_kept) }
{
    &fields[usize::from(session) - 1]
}

// From now on the transaction of a session, which is one of these, is open, and the session has ended, or not.
pub fn set_field(fields: &mut Vec<SessionField>, session: u16, is_open: bool, has_ended: bool)
    requires low { 1 ≤ session }
    requires high { session ≤ length fields.old.items }
    ensures { fields.new.items ≡ slice_set fields.old.items (session - 1) (record (unwrap_or (slice_get fields.old.items (session - 1)) (session_field new_kept)) { is_open = is_open; has_ended = has_ended }) }
{
    let field = &mut fields[usize::from(session) - 1];
    field.is_open = is_open;
    field.has_ended = has_ended;
}

// From now on a promise of a session, which is one of these, stands. The answer is the number of the blocks that were promised to
// the session before.
pub fn set_promise(fields: &mut Vec<SessionField>, session: u16, promised: Promised) -> u64
    requires low { 1 ≤ session }
    requires high { session ≤ length fields.old.items }
    ensures before { result ≡ promised_blocks (unwrap_or (slice_get fields.old.items (session - 1)) (session_field new_kept)) }
    ensures fields { fields.new.items ≡ slice_set fields.old.items (session - 1) (record (unwrap_or (slice_get fields.old.items (session - 1)) (session_field new_kept)) { promise = Some promised }) }
{
    let field = &mut fields[usize::from(session) - 1];
    let blocks = match &field.promise {
        Some(before) => before.blocks,
        None => 0,
    };
    field.promise = Some(promised);
    blocks
}
