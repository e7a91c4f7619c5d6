//! Digests of values.
ghost use Rattle.std.specs.Prelude.{◌≡◌, ◌≤◌, length};
ghost use Rattle.sha2.specs.Sha256.{sha256};
ghost use Rattle.sf_types.specs.Values.Marks.{strip};

use sf_chunk_map::Map;
use sf_types::Sum;
use sha2::{Digest, Sha256};

/// The SHA-256 of a value's bytes, which are read through a buffer of one byte at least. It takes no memory.
pub fn sum_of_value(map: &Map, buffer: &mut [u8]) -> Sum
    requires { 1 ≤ length buffer.old }
    ensures sum { result ≡ sha256 (strip map.now) }
    ensures buffer { length buffer.new ≡ length buffer.old }
{
    let mut hasher = Sha256::new();
    let mut at = 0u64;
    while at < map.len() {
        let count = map.read_into(at, buffer);
        hasher.update(&buffer[..count]);
        at += count as u64;
    }
    Sum::new(hasher.finalize())
}
