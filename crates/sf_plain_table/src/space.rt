//! Blocks in use and free, and which cuts are found among stored contents.
ghost use Rattle.std.specs.Prelude.{◌≡◌, sum_by, IfOk};
ghost use Rattle.sf_types.specs.Space.Use.{blocks_of_births, promised_blocks, use_of, free_of};
ghost use Rattle.sf_types.specs.Space.Promises.{is_shared_as, found_birth};

use crate::content::Content;
use crate::cuts::Cut;
use crate::reach::{blocks_of_birth, content_of};
use crate::session::Session;
use crate::table::Table;
use sf_types::{Blob, Mem, OutOfMemory};

// The blocks of the contents of some births. A sum past the last u64 is one for which there is no memory.
fn blocks_of_births(contents: &[Content], births: &[u128]) -> Mem<u64>
    ensures { IfOk result (λ blocks. blocks ≡ blocks_of_births contents.now births.now) }
{
    let mut blocks = 0u64;
    for birth in births {
        let more = blocks_of_birth(contents, *birth);
        blocks = blocks.checked_add(more).ok_or(OutOfMemory)?;
    }
    Ok(blocks)
}

// The blocks of a session's standing promise.
fn promised_blocks(session: &Session) -> u64
    ensures { result ≡ promised_blocks session.now }
{
    match &session.promise {
        Some(promise) => promise.blocks,
        None => 0,
    }
}

// The blocks of all standing promises. A sum past the last u64 is one for which there is no memory.
fn all_promised(sessions: &[Session]) -> Mem<u64>
    ensures { IfOk result (λ blocks. blocks ≡ sum_by promised_blocks sessions.now) }
{
    let mut blocks = 0u64;
    for session in sessions {
        let more = promised_blocks(session);
        blocks = blocks.checked_add(more).ok_or(OutOfMemory)?;
    }
    Ok(blocks)
}

// Whether a birth is shared and has these bytes.
fn is_shared_as(contents: &[Content], bytes: &Blob, birth: u128) -> bool
    ensures { result ≡ is_shared_as contents.now bytes.now birth }
{
    match content_of(contents, birth) {
        Some(content) => content.is_shared && content.bytes.as_bytes() == bytes.as_bytes(),
        None => false,
    }
}

/// The first shared birth among some with the bytes of a cut, where the cut is sharing. None where there is none.
pub fn found_birth(contents: &[Content], reached: &[u128], cut: &Cut) -> Option<u128>
    ensures { result ≡ found_birth contents.now reached.now cut.now }
{
    if !cut.is_sharing {
        return None;
    }
    for birth in reached {
        if is_shared_as(contents, &cut.bytes, *birth) {
            return Some(*birth);
        }
    }
    None
}

impl Table {
    /// The blocks of all births in reach, and those of all standing promises.
    pub fn use_of(&self) -> Mem<u64>
        ensures { IfOk result (λ blocks. blocks ≡ use_of self.now) }
    {
        let stored = blocks_of_births(&self.contents, &self.reach()?)?;
        let promised = all_promised(&self.sessions)?;
        stored.checked_add(promised).ok_or(OutOfMemory)
    }

    /// The capacity less the blocks in use.
    pub fn free_blocks(&self) -> Mem<u64>
        ensures { IfOk result (λ blocks. blocks ≡ free_of self.now) }
    {
        let used = self.use_of()?;
        Ok(u64::from(self.options.capacity).saturating_sub(used))
    }
}
