//! What a program reads from and writes to: the traits, the ones in memory, and std's.
//!
//! The rules of these traits are our own. An object counts its faults and tells whether its last
//! call failed. A call answers `Failed` exactly where that count rose by one, or stands at
//! 2^64 - 1, the last value of a counter.
#![tactic(auto)]

mod call_counts;
mod failed;
mod fault_count;
mod kept;
mod memory_sink;
mod memory_source;
mod sink;
mod source;
mod standard;
mod sure;

pub use failed::Failed;
pub use memory_sink::MemSink;
pub use memory_source::MemSource;
pub use sink::Sink;
pub use source::Source;
pub use standard::{StdSink, StdSource, StdStream};
pub use sure::{SureSink, SureSource};
