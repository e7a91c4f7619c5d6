//! Histories and orders.
ghost use Rattle.std.specs.Prelude.{◌≡◌, map, IfOk, take};

use crate::call::Call;
use crate::copy::TryCopy;
use crate::list::List;
use crate::memory::Mem;

/// What a token of an order stands for.
#[derive(Clone, Copy, Debug, PartialEq, Eq)]
pub enum Kind {
    /// The session's next call ends.
    Call,
    /// The session's next call gets its promise.
    Promise,
    /// The promise of the session's next call ends, and the call doesn't. No transcript has it.
    Cancel,
}

/// One step of an order: a session's number, counted from 1, and what happens to its next call.
#[derive(Clone, Copy, Debug, PartialEq, Eq)]
pub struct Token {
    pub session: u16,
    pub kind: Kind,
}

/// A token with its call. A promise or a cancel carries the call that is due.
#[derive(Drop)]
pub struct Entry {
    pub token: Token,
    pub call: Call,
}

impl TryCopy for Entry {
    fn copy(&self) -> Mem<Entry> {
        Ok(Entry {
            token: self.token,
            call: self.call.copy()?,
        })
    }
}

/// The tokens of a history.
pub type Order = List<Token>;

/// Entries, in the order in which they took effect.
pub type History = List<Entry>;

impl TryCopy for Token {
    fn copy(&self) -> Mem<Token> {
        Ok(*self)
    }
}

impl List<Entry> {
    /// The tokens of the entries.
    pub fn order(&self) -> Mem<Order>
        ensures { IfOk result (λ order. order ≡ map (λ entry. entry.token) self.now) }
    {
        let mut tokens = Vec::with_capacity(self.allocator(), self.len())?;
        for entry in self.as_slice() {
            tokens.push(entry.token)?;
        }
        Ok(List::from_vec(tokens))
    }
}
