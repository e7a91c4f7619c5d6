//! What a store keeps for due calls.
ghost use Rattle.std.specs.Prelude.{◌≡◌, ◌-◌, ◌≤◌, None, length, replicate, slice_set, IfOk};
ghost use Rattle.sf_plain_store.specs.Inside.DueCalls.{due_call_of, no_due_call};

use sf_types::{Mem, Runs};
use sf_versions::Flush;
use std::alloc::Global;

/// What a store keeps for a session's due call: its flush from the promise to the publication, and the blocks that were collected
/// for it. Where a publication wanted memory the flush is gone, and is made anew.
#[derive(Drop)]
pub struct DueCall {
    pub flush: Option<Flush>,
    pub blocks: Runs,
}

/// What is kept for so many sessions that have no due call.
pub fn no_due_calls(alloc: Global, sessions: u16) -> Mem<Vec<DueCall>>
    ensures { IfOk result (λ due_calls. due_calls.items ≡ replicate sessions no_due_call) }
{
    let mut due_calls = Vec::with_capacity(alloc, usize::from(sessions))?;
    for _ in 0..sessions {
        due_calls.push(DueCall {
            flush: None,
            blocks: Runs::new(alloc),
        })?;
    }
    Ok(due_calls)
}

/// Keeps a flush for a session, or none.
pub fn set_flush(due_calls: &mut Vec<DueCall>, session: u16, flush: Option<Flush>)
    requires low { 1 ≤ session }
    requires high { session ≤ length due_calls.old.items }
    ensures { due_calls.new.items ≡ slice_set due_calls.old.items (session - 1) (record (due_call_of due_calls.old.items session) { flush = flush }) }
{
    due_calls[usize::from(session) - 1].flush = flush;
}

/// Takes the flush that is kept for a session.
pub fn take_flush(due_calls: &mut Vec<DueCall>, session: u16) -> Option<Flush>
    requires low { 1 ≤ session }
    requires high { session ≤ length due_calls.old.items }
    ensures flush { result ≡ (due_call_of due_calls.old.items session).flush }
    ensures others { due_calls.new.items ≡ slice_set due_calls.old.items (session - 1) (record (due_call_of due_calls.old.items session) { flush = None }) }
{
    due_calls[usize::from(session) - 1].flush.take()
}

/// Keeps collected blocks for a session, or none.
pub fn set_blocks(due_calls: &mut Vec<DueCall>, session: u16, blocks: Runs)
    requires low { 1 ≤ session }
    requires high { session ≤ length due_calls.old.items }
    ensures { due_calls.new.items ≡ slice_set due_calls.old.items (session - 1) (record (due_call_of due_calls.old.items session) { blocks = blocks }) }
{
    due_calls[usize::from(session) - 1].blocks = blocks;
}

/// A copy of the blocks that are kept for a session.
pub fn copied_blocks(due_calls: &[DueCall], session: u16) -> Mem<Runs>
    requires low { 1 ≤ session }
    requires high { session ≤ length due_calls.now }
    ensures { IfOk result (λ blocks. blocks.held ≡ (due_call_of due_calls.now session).blocks.held) }
{
    due_calls[usize::from(session) - 1].blocks.copy()
}
