//! Reading the whole input.
ghost use Rattle.std.specs.Prelude.{◌≡◌, ◌≤◌, IfSome, IfOk, IfErr, OnOk, vec_len};
ghost use Rattle.sf_program.specs.Inputs.{IsRead, IsCause};

use sf_outside::Source;
use sf_script::SCRIPT_BYTES;
use std::alloc::{AllocError, Global};

/// The most bytes that are read, one more than a script may have.
const READ_LIMIT: usize = SCRIPT_BYTES + 1;

/// The most bytes that one call reads.
const PIECE: usize = 65_536;

/// Why reading stopped.
#[derive(Debug, Drop)]
pub enum ReadError {
    /// Want of memory.
    Memory,
    /// The source failed.
    Failed,
}

impl From<AllocError> for ReadError {
    ghost use Rattle.std.specs.Prelude.{◌≡◌};
    ghost use Rattle.sf_program.specs.declared.input.ReadError.TheVariants.{Memory};

    ghost from_gives = { λ _ error. error ≡ Memory };

    fn from(_error: AllocError) -> ReadError {
        ReadError::Memory
    }
}

// So many zero bytes.
fn zeros(alloc: Global, count: usize) -> Result<Vec<u8>, AllocError>
    ensures { IfOk result (λ bytes. vec_len bytes ≡ count) }
{
    vec![in alloc; 0u8; count]
}

/// Reads the input to its end, or up to `READ_LIMIT` bytes. Each turn of its loop takes at least one byte, or ends it.
pub fn read_input<S: Source>(alloc: Global, source: &mut S) -> Result<Vec<u8>, ReadError>
    ensures read { IfSome (S.left source.old) (λ input. IfOk result (λ bytes. IsRead input (S.left source.new) bytes.items)) }
    ensures later { S.faults source.old ≤ S.faults source.new }
    ensures steady { OnOk result (S.faults source.new ≡ S.faults source.old) }
    ensures cause { IfErr result (IsCause (S.faults source.old) (S.faults source.new) (S.has_failed source.new)) }
{
    let mut bytes = Vec::new(alloc);
    let mut buffer = zeros(alloc, PIECE)?;
    while bytes.len() < READ_LIMIT {
        let room = (READ_LIMIT - bytes.len()).min(PIECE);
        let part = &mut buffer[..room];
        match source.read(part) {
            Ok(0) => break,
            Ok(count) => bytes.extend_from_slice(&part[..count])?,
            Err(_) => return Err(ReadError::Failed),
        }
    }
    Ok(bytes)
}
