//! A session outside the store: what contracts see of it, what it needs next, and how it stays in step with the store.
#![tactic(auto)]

mod accepting;
mod asking;
mod laws;
mod local;
mod need;
mod phase;
mod session_core;

pub use laws::{
    a_cancel_leaves_a_core_at_home, a_collection_leaves_a_core_at_home,
    a_granted_promise_leaves_a_core_at_home, a_known_refusal_is_answered,
    a_local_call_leaves_a_core_at_home, a_new_core_is_at_home, a_publication_leaves_a_core_at_home,
    a_refused_promise_leaves_a_core_at_home, a_started_call_leaves_a_core_at_home,
    an_event_leaves_a_core_at_home, noted_calls_leave_a_core_at_home, others_leave_a_core_at_home,
};
pub use need::Need;
pub use phase::Phase;
pub use session_core::SessionCore;
