//! What a session needs next.

/// What a session's standing call needs next, or that none stands.
#[derive(Clone, Copy, Debug, PartialEq, Eq)]
pub enum Need {
    /// A call: none stands.
    Idle,
    /// Nothing of the store: the standing call is local.
    Local,
    /// A turn of the store, in which the standing call ends.
    Event,
    /// A promise of blocks for the standing call, which is due.
    Reserve,
    /// So many promised blocks, at least one.
    Collect(u64),
    /// A turn of the store in which the standing call, whose blocks are collected, is published and ends.
    Publish,
    /// Nothing ever: the session has ended.
    Ended,
}
