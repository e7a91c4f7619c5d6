//! The limits of a script. Every number is this project's own.

/// The most bytes of a script.
pub const SCRIPT_BYTES: usize = 16_777_216;

/// The most calls of a script, without the Ends.
pub const SCRIPT_CALLS: u32 = 20_000;

/// The most payload bytes of all calls of a script.
pub const SCRIPT_PAYLOAD_BYTES: u64 = 67_108_864;

/// The most turns of a script's schedule.
pub const SCRIPT_TURNS: u32 = 200_000;
