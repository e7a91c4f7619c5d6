//! The limits of a store. Every number is this project's own.

/// The most bytes of a row's name.
pub const ROW_NAME_BYTES: usize = 64;

/// The most bytes of a locator's or a savepoint's name.
pub const LOCATOR_NAME_BYTES: usize = 16;

/// The most bytes of an object.
pub const OBJECT_BYTES: u64 = 67_108_864;

/// The most bytes of a buffer or a pattern of a call, and of what one Read answers.
pub const BUFFER_BYTES: u64 = 32_767;

/// The most bytes of a content.
pub const CONTENT_BYTES: u64 = 32_768;

/// The bytes of a block.
pub const BLOCK_BYTES: u64 = 512;

/// The most blocks of a store.
pub const STORE_BLOCKS: u32 = 65_536;

/// The most commits for which an old version is kept by number.
pub const RETAINED_COMMITS: u32 = 1_000;

/// The least number of fresh bytes at which a writing call may be told to flush.
pub const LEAST_GATHER_BYTES: u32 = 512;

/// The greatest number of fresh bytes at which a writing call may be told to flush.
pub const MOST_GATHER_BYTES: u32 = 1_048_576;

/// The most dispensers of a store.
pub const STORE_DISPENSERS: u32 = 8;

/// The most sessions of a store.
pub const STORE_SESSIONS: u16 = 16;

/// The most locators that a session has at a time.
pub const SESSION_LOCATORS: usize = 256;

/// The most savepoints that a session has at a time.
pub const SESSION_SAVEPOINTS: usize = 64;

/// The most parked blocks that a reclaim turn of a play makes free.
pub const RECLAIMED_BLOCKS: u64 = 64;
