//! What a seat knows, which stands in proofs alone.
use sf_types::Entry;
use std::collections::LinkedList;

/// Where a seat is in its turn. No value of it is made.
pub enum Phase {
    /// The seat has no ticket.
    Idle,
    /// The seat has drawn this ticket.
    Waits(u64),
    /// The seat has the slot, by this ticket.
    Holds(u64),
    /// The seat was joined into the first one.
    Spent,
}

/// What a seat knows. No value of it is made.
pub struct View {
    /// 0 for the first seat, and k for the seat of the k-th split.
    pub number: u64,
    /// The history, as far as the seat has seen it.
    pub front: LinkedList<Entry>,
    pub phase: Phase,
    /// Of the first seat: the splits so far.
    pub splits: u64,
    /// Of the first seat: the other seats that are out.
    pub others_out: u64,
    /// Of the first seat: the numbers of the seats that were joined into it.
    pub joined_numbers: LinkedList<u64>,
    /// Whether the seat's last step was a join. Then the next three are its front before the join, and the number and the
    /// front of the seat that was joined.
    pub just_joined: bool,
    pub front_before: LinkedList<Entry>,
    pub other_number: u64,
    pub other_front: LinkedList<Entry>,
}
