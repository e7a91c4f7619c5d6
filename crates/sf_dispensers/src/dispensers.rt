//! The lists and the words.
ghost use Rattle.std.specs.Prelude.{◌≡◌, ◌<◌, length, IfOk, OnOk};
ghost use Rattle.sf_types.specs.Space.BlockRuns.{blocks_in};
ghost use Rattle.sf_space_words.specs.Blocks.{AreBelow, IsOnce};
ghost use Rattle.sf_space_words.specs.Seats.{IsOf};
ghost use Rattle.sf_dispensers.specs.Seats.{IsSpaceOf};

use crate::dispenser::Dispenser;
use crate::gathering::Gathering;
use crate::named::Named;
use crate::reservation::Reservation;
use crate::ripe::Ripe;
use sf_space_words::{Seat, Words};
use sf_types::{Mem, OutOfMemory};
use std::alloc::Global;
use std::marker::{Model, PhantomData};
use std::sync::atomic::{AtomicU32, Ordering};
use std::sync::{Mutex, Wait};
use std::thread::yield_now;

/// The runs for which each list has room.
pub const DISPENSER_RUNS: usize = 64;

// The seat that dispensers were made with, which keeps what blocks it has.
struct FirstSeat {
    seat: Seat,
}

// Its blocks are gone with the words.
impl Drop for FirstSeat {
    fn drop(self) {
        let FirstSeat { seat } = self;
        seat.abandon();
    }
}

/// A store's words, and lists of free blocks of them, seen as the words and the number of the lists.
#[derive(Drop)]
pub struct Dispensers<N: Named> {
    alloc: Global,
    words: Words,
    lists: Vec<Mutex<Dispenser<N>>>,
    next_word: AtomicU32,
    first_seat: Mutex<FirstSeat>,
    of: PhantomData<N>,
}

impl<N: Named> Model for Dispensers<N> {
    ghost use Rattle.std.specs.Prelude.{vec_len};
    ghost use Rattle.sf_dispensers.specs.Seats.{IsSpaceOf, Supply};

    ghost Value = { Supply };

    ghost view = { λ d. record { words = d.words; list_count = vec_len d.lists } };

    ghost invariant = { λ d. IsSpaceOf N.space N.options d.words };
}

impl<N: Named> Dispensers<N> {
    /// So many lists without blocks. The words are the store's, and the seat is of them. What blocks it has are never given out.
    pub fn new(alloc: Global, words: Words, seat: Seat, count: u32) -> Mem<Dispensers<N>>
        requires words { IsSpaceOf N.space N.options words }
        requires seat { IsOf words seat }
        ensures words { IfOk result (λ made. made.words ≡ words) }
        ensures lists { IfOk result (λ made. made.list_count ≡ count) }
    {
        let mut first_seat = FirstSeat { seat };
        let lists = Dispensers::new_lists(alloc, &words, &mut first_seat.seat, count)?;
        Ok(Dispensers {
            alloc,
            words,
            lists,
            next_word: AtomicU32::new(0),
            first_seat: Mutex::new(first_seat),
            of: PhantomData,
        })
    }

    // So many lists without blocks.
    fn new_lists(
        alloc: Global,
        words: &Words,
        seat: &mut Seat,
        count: u32,
    ) -> Mem<Vec<Mutex<Dispenser<N>>>>
        requires words { IsSpaceOf N.space N.options words.now }
        requires seat { IsOf words.now seat.old }
        ensures { IfOk result (λ lists. length lists.items ≡ count) }
    {
        let mut lists = Vec::with_capacity(alloc, count as usize)?;
        for _ in 0..count {
            let list = Dispenser::new(alloc, words, seat, DISPENSER_RUNS)?;
            lists.push_reserved(Mutex::new(list));
        }
        Ok(lists)
    }

    /// The words that these dispensers were made with, which are the store's.
    pub fn words(&self) -> &Words
        ensures words { result.now ≡ self.now.words }
        ensures store { IsSpaceOf N.space N.options result.now }
    {
        &self.words
    }

    /// Collects exactly n blocks, each of them once and below the store's capacity: from the home list, from the words, from
    /// the other lists, and once more after `ripe` freed blocks, until there are so many. After want of memory, what it had
    /// is in the home list as far as that has room, or clear.
    pub fn collect<R: Wait, F: Ripe>(
        &self,
        rt: &R,
        home: u32,
        n: u64,
        ripe: &mut F,
    ) -> Mem<Reservation<N>>
        requires { home < self.now.list_count }
        ensures blocks { IfOk result (λ reservation. length (blocks_in reservation) ≡ n) }
        ensures once { IfOk result (λ reservation. IsOnce (blocks_in reservation)) }
        ensures below { IfOk result (λ reservation. AreBelow N.options.capacity (blocks_in reservation)) }
        ensures ripe { F.follows ripe.old ripe.new }
    {
        let mut gathering = self.lists[home as usize]
            .lock(rt)
            .begin(self.alloc, &self.words, n)?;
        let outcome = self.fill(rt, home, &mut gathering, ripe);
        let reservation = gathering.into_reservation();
        match outcome {
            Ok(()) => Ok(reservation),
            Err(OutOfMemory) => {
                self.hand_back(rt, home, reservation);
                Err(OutOfMemory)
            }
        }
    }

    // Gathers until nothing is missing, once the home list gave what it has.
    fn fill<R: Wait, F: Ripe>(
        &self,
        rt: &R,
        home: u32,
        gathering: &mut Gathering<N>,
        ripe: &mut F,
    ) -> Mem<()>
        requires { home < self.now.list_count }
        ensures full { OnOk result (gathering.new.block_count ≡ gathering.old.wanted_blocks) }
        ensures ripe { F.follows ripe.old ripe.new }
    {
        for _ in rt.forever() {
            self.gather(rt, gathering)?;
            if gathering.missing_blocks() == 0 {
                return Ok(());
            }
            ripe.fetch(rt)?;
            yield_now();
            self.lists[home as usize]
                .lock(rt)
                .give(&self.words, gathering)?;
        }
        unreachable!()
    }

    // Gathers what is missing, or what there is: from the words, and from all lists.
    fn gather<R: Wait>(&self, rt: &R, gathering: &mut Gathering<N>) -> Mem<()>
        ensures { gathering.new.wanted_blocks ≡ gathering.old.wanted_blocks }
    {
        if gathering.missing_blocks() > 0 {
            self.scan(gathering)?;
        }
        for list in &self.lists {
            if gathering.missing_blocks() == 0 {
                break;
            }
            list.lock(rt).give(&self.words, gathering)?;
        }
        Ok(())
    }

    // Claims what is missing from the words, or what is clear. It begins with the word at which the last scan ended.
    fn scan(&self, gathering: &mut Gathering<N>) -> Mem<()>
        ensures { gathering.new.wanted_blocks ≡ gathering.old.wanted_blocks }
    {
        let count = self.words.count();
        let from = self.next_word.load(Ordering::SeqCst) % count;
        let mut word = from;
        for turn in 0..count {
            if gathering.missing_blocks() == 0 {
                break;
            }
            word = (from + turn) % count;
            let mask = gathering.clear_bits(&self.words, word);
            if mask != 0 {
                gathering.claim(&self.words, word, mask)?;
            }
        }
        self.next_word.store(word, Ordering::SeqCst);
        Ok(())
    }

    /// Puts a reservation's blocks into the home list, as far as that has room, and clears the others. It takes no memory.
    pub fn hand_back<R: Wait>(&self, rt: &R, home: u32, reservation: Reservation<N>)
        requires { home < self.now.list_count }
    {
        self.lists[home as usize]
            .lock(rt)
            .take_back(&self.words, reservation);
    }
}
