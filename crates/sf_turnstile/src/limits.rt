//! The limit of a turnstile. The number is this project's own.

/// The most splits of a turnstile, and so the most seats beside the first one.
pub const TURNSTILE_SPLITS: u16 = 17;
