//! The options of a store, and the choice of a value.
ghost use Rattle.std.specs.Prelude.{◌≡◌, IsTrue, ◌↔◌};
ghost use Rattle.sf_types.specs.Limits.{IsInRange, standard_options};

use crate::limits::{
    LEAST_GATHER_BYTES, MOST_GATHER_BYTES, RETAINED_COMMITS, STORE_BLOCKS, STORE_DISPENSERS,
};

/// The options of a store. The ranges and the defaults are this project's own.
#[derive(Clone, Copy, Debug, PartialEq, Eq)]
pub struct Options {
    /// The store's size in blocks of 512 bytes, 1 to 65,536.
    pub capacity: u32,
    /// Whether equal contents are shared.
    pub dedup: bool,
    /// How many commits an old version is kept for, 0 to 1,000. It is 0 where `max` is true.
    pub retention: u32,
    /// Whether old versions are kept for as long as there is room.
    pub max: bool,
    /// How many fresh bytes make a writing call flush, 512 to 1,048,576.
    pub gather: u32,
    /// How many dispensers hand out blocks to threads, 1 to 8.
    pub dispensers: u32,
}

/// Whether the bytes of a value are shared with equal ones.
#[derive(Clone, Copy, Debug, PartialEq, Eq)]
pub enum Choice {
    /// As the store's option says.
    Standard,
    /// Shared, whatever the option says.
    Share,
    /// Kept apart, whatever the option says.
    Keep,
}

impl Options {
    /// The defaults: 1,024 blocks, sharing, no retention, a threshold of 65,536 bytes and 4 dispensers.
    pub fn standard() -> Options
        ensures { result ≡ standard_options }
    {
        Options {
            capacity: 1024,
            dedup: true,
            retention: 0,
            max: false,
            gather: 65536,
            dispensers: 4,
        }
    }

    /// Whether each option is in its range.
    pub fn in_range(&self) -> bool
        ensures { IsTrue result ↔ IsInRange self.now }
    {
        let has_capacity = 1 <= self.capacity && self.capacity <= STORE_BLOCKS;
        let has_retention = self.retention <= RETAINED_COMMITS
            && (!self.max || self.retention == 0);
        let has_gather = LEAST_GATHER_BYTES <= self.gather && self.gather <= MOST_GATHER_BYTES;
        let has_dispensers = 1 <= self.dispensers && self.dispensers <= STORE_DISPENSERS;
        has_capacity && has_retention && has_gather && has_dispensers
    }
}
