//! Runs of blocks.
ghost use Rattle.std.specs.Prelude.{◌≡◌, ◌<◌, ◌^◌, length};
ghost use Rattle.sf_types.specs.Space.BlockRuns.{blocks_in};

use crate::copy::TryCopy;
use crate::list::List;
use crate::memory::Mem;
use crate::room_list::RoomList;

/// Neighbouring blocks of 512 bytes: the first, counted from 0, and their number.
#[derive(Clone, Copy, Debug, PartialEq, Eq)]
pub struct Run {
    pub first: u32,
    pub blocks: u32,
}

impl TryCopy for Run {
    fn copy(&self) -> Mem<Run> {
        Ok(*self)
    }
}

/// Runs of blocks, with room for more.
pub type Runs = RoomList<Run>;

/// The runs of one content, in the order of its blocks.
pub type ContentRuns = List<Run>;

impl List<Run> {
    /// The number of blocks of all runs.
    pub fn block_count(&self) -> u64
        requires { length (blocks_in self.now) < 2 ^ 64 }
        ensures { result ≡ length (blocks_in self.now) }
    {
        let mut count = 0u64;
        for run in self.as_slice() {
            count += u64::from(run.blocks);
        }
        count
    }
}
