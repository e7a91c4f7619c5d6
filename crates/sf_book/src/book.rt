//! The shared state of a store for any number of sessions.
ghost use Rattle.std.specs.Prelude.{◌≡◌, ◌+◌, ◌≤◌, [], ◌++◌, length, take, drop, min, IfOk};
ghost use Rattle.sf_types.specs.Limits.{IsInRange};
ghost use Rattle.sf_types.specs.declared.limits.TheConstants.{STORE_SESSIONS};
ghost use Rattle.sf_types.specs.Space.BlockRuns.{blocks_in};
ghost use Rattle.sf_types.specs.Table.Versions.{commit_count};
ghost use Rattle.sf_book.specs.Books.{IsSound, table_of};

use sf_store_half::StoreHalf;
use sf_types::{Entry, Mem, Options, RoomList, Runs};
use std::alloc::Global;
use std::marker::Model;

/// The shared state of a store, seen as its options, its number of sessions, what was done so far, the places of the births in
/// reach, and the parked blocks.
#[derive(Drop)]
pub struct Book {
    pub(crate) sessions: u16,
    pub(crate) history: RoomList<Entry>,
    pub(crate) half: StoreHalf,
}

impl Model for Book {
    ghost use Rattle.sf_book.specs.Books.{BookView};
    ghost use Rattle.sf_book.specs.Inside.Bodies.{IsBook, book_of};

    ghost Value = { BookView };

    ghost view = { λ b. book_of b.half b.history.held };

    ghost invariant = { λ b. IsBook b.half b.history.held b.sessions b.history.spare };
}

impl Book {
    /// The Book of a store to which nothing was done.
    pub fn new(alloc: Global, options: Options, sessions: u16) -> Mem<Book>
        requires options { IsInRange options }
        requires some { 1 ≤ sessions }
        requires few { sessions ≤ STORE_SESSIONS }
        ensures { IfOk result (λ book. book ≡ record { options = options; sessions = sessions; history = []; places = []; parked = [] }) }
    {
        let half = StoreHalf::new(alloc, options, sessions)?;
        let _next = half.next_birth();
        Ok(Book {
            sessions,
            history: RoomList::new(alloc),
            half,
        })
    }

    /// The entries of what was done so far, in the order in which it took effect.
    pub fn history(&self) -> &[Entry]
        ensures entries { result.now ≡ self.now.history }
        ensures sound { IsSound self.now }
    {
        self.history.as_slice()
    }

    /// The number of commits.
    pub fn now(&self) -> u64
        ensures { result ≡ commit_count (table_of self.now) }
    {
        self.half.now()
    }

    /// The number of blocks of the store.
    pub fn capacity(&self) -> u32
        ensures { result ≡ self.now.options.capacity }
    {
        self.half.capacity()
    }

    /// Takes the first `max` parked blocks, or all where there are fewer, and puts their runs behind those of `into`, which has
    /// room for as many runs as blocks are taken. The answer is the number of the blocks. It takes no memory.
    pub fn take_ripe(&mut self, max: u64, into: &mut Runs) -> u64
        requires { min max (length self.old.parked) ≤ into.old.spare }
        ensures count { result ≡ min max (length self.old.parked) }
        ensures taken { blocks_in into.new.held ≡ blocks_in into.old.held ++ take result self.old.parked }
        ensures book { self.new ≡ record self.old { parked = drop result self.old.parked } }
        ensures spare { into.old.spare ≤ into.new.spare + result }
    {
        let count = self.half.take_ripe(max, into);
        let _next = self.half.next_birth();
        count
    }
}
