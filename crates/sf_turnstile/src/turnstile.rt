//! The turnstile.
ghost use Rattle.std.specs.Prelude.{◌≡◌, ℕ, ◌+◌, ◌-◌, ◌<◌, [], ◌∷◌, true, false, IfOk, Some, Contains};
ghost use mathlib.Core.List.{IsPrefix};
ghost use Rattle.sf_types.specs.Orders.Fronts.{entries_of};
ghost use Rattle.sf_turnstile.specs.declared.view.Phase.TheVariants.{Waits};
ghost use Rattle.sf_turnstile.specs.Continuations.{Continues, IsNewer};
ghost use Rattle.sf_turnstile.specs.Sittings.{first_sitting, next_sitting};
ghost use Rattle.sf_turnstile.specs.Steps.{view_with_value};

use crate::held::Held;
use crate::limits::TURNSTILE_SPLITS;
use crate::seat::Seat;
use crate::steps::{Compare, Draw, HandOn, LongerFront, Look, NewSeat, Turns};
use crate::told::Told;
use crate::view::View;
use atomic_table::Table;
use sf_types::{Mem, OutOfMemory};
use std::alloc::Global;
use std::hint::spin_loop;
use std::marker::Model;
use std::sync::Wait;

// The word that has the next ticket to be drawn.
const TICKET: usize = 0;

// The word that has the ticket that is served.
const SERVING: usize = 1;

// The slot that has the value.
const VALUE: usize = 0;

// How often a seat that waits looks for a change before it sleeps.
const LOOKS_BEFORE_SLEEP: u32 = 128;

/// A value that seats take in turn, seen as its identity: a seat is of the turnstile whose identity its `id` is.
#[derive(Drop)]
pub struct Turnstile<B: Told> {
    table: Table<Option<B>, View, (), Turns, Global>,
}

impl<B: Told> Model for Turnstile<B> {
    ghost use Rattle.std.specs.Prelude.{◌≡◌};
    ghost use Rattle.atomic_table.specs.Seated.{TableId};

    ghost Value = { TableId };

    ghost view = { λ t. t.table.shared.table_id };

    ghost invariant = { λ t. (t.table.shared.table_id.words ≡ 2) × (t.table.shared.table_id.slots ≡ 1) };
}

// The lower half of a word, by which a seat sleeps on it.
fn low_half(word: u64) -> u32 {
    (word % (1 << 32)) as u32
}

impl<B: Told> Turnstile<B> {
    /// A turnstile over a value whose history is empty, and the first seat. After want of memory the value is gone.
    pub fn new(alloc: Global, value: B) -> Mem<(Turnstile<B>, Seat<B>)>
        requires { B.history value ≡ [] }
        ensures { IfOk result (λ made. made.1 ≡ first_sitting made.0) }
    {
        let mut slots = Vec::with_capacity(alloc, 1)?;
        slots.push(Some(value))?;
        match Table::new(alloc, &[0, 0], slots, &()) {
            Ok((table, seat)) => Ok((
                Turnstile { table },
                Seat {
                    seat,
                    number: 0,
                    splits: 0,
                    others_out: 0,
                },
            )),
            Err(_) => Err(OutOfMemory),
        }
    }

    // Waits until another ticket than this one may be served. It may also return for no reason.
    fn rest<R: Wait>(&self, rt: &R, serving: u64) {
        for _ in 0..LOOKS_BEFORE_SLEEP {
            if self.table.shared.peek(SERVING) != serving {
                return;
            }
            spin_loop();
        }
        self.table.shared.park(rt, SERVING, low_half(serving));
    }

    // Waits until a ticket is served, and takes the slot.
    fn wait_for<R: Wait>(&self, rt: &R, seat: &mut atomic_table::Seat<Option<B>, View>, ticket: u64)
        requires turnstile { seat.old.table_id ≡ self.now }
        requires waits { (seat.old.me.0.phase ≡ Waits ticket) × (seat.old.me.1 ≡ []) }
        ensures same { (seat.new.table_id ≡ seat.old.table_id) × (seat.new.id ≡ seat.old.id) }
        ensures slot { (b : B) × IsNewer seat.old.me.0 (B.history b) × (seat.new.me ≡ (view_with_value ticket (B.history b) seat.old.me.0, (0, Some b) ∷ [])) }
    {
        for _ in rt.forever() {
            let serving = self.table.shared.load::<Look>(seat, SERVING);
            if serving == ticket {
                return;
            }
            self.rest(rt, serving);
        }
        unreachable!()
    }

    /// Waits for the seat's turn, and takes the value. Its history begins with the seat's front, and the rest has no entry
    /// of the seat's session, nor of a session whose seat was joined into it. It takes no memory.
    pub fn take<R: Wait>(&self, rt: &R, seat: &mut Seat<B>) -> Held<B>
        requires turnstile { seat.old.id ≡ self.now }
        requires idle { seat.old.has_value ≡ false }
        ensures value { B.history result ≡ seat.new.front }
        ensures front { IsPrefix seat.old.front seat.new.front }
        ensures own { entries_of seat.old.number seat.new.front ≡ entries_of seat.old.number seat.old.front }
        ensures joined { (s : ℕ) → Contains seat.old.joined_numbers s → entries_of s seat.new.front ≡ entries_of s seat.old.front }
        ensures seat { seat.new ≡ record seat.old { front = seat.new.front; has_value = true } }
    {
        let ticket = self
            .table
            .shared
            .fetch_add::<Draw>(&mut seat.seat, TICKET, 1);
        self.wait_for(rt, &mut seat.seat, ticket);
        let found = self.table.shared.exchange(&mut seat.seat, VALUE, None);
        let Some(value) = found else { unreachable!() };
        Held::of(value)
    }

    /// Puts the value back, to whose history the seat's session alone may have added, and hands the turn on. It waits for
    /// nobody and takes no memory.
    pub fn hand_on(&self, seat: &mut Seat<B>, held: Held<B>)
        requires turnstile { seat.old.id ≡ self.now }
        requires holds { seat.old.has_value ≡ true }
        requires history { Continues seat.old.number seat.old.front (B.history held) }
        ensures { seat.new ≡ record seat.old { front = B.history held; has_value = false } }
    {
        let value = held.into_value();
        let left = self
            .table
            .shared
            .exchange(&mut seat.seat, VALUE, Some(value));
        let None = left else { unreachable!() };
        let served = self
            .table
            .shared
            .fetch_add::<HandOn>(&mut seat.seat, SERVING, 1);
        // Who draws after this look finds its ticket served, so where none has drawn before, none sleeps.
        if self.table.shared.peek(TICKET) != served.wrapping_add(1) {
            self.table.shared.wake_all(SERVING);
        }
    }

    /// The number of splits so far, at most `TURNSTILE_SPLITS`, which the first seat knows.
    pub fn splits(&self, seat: &Seat<B>) -> u16
        requires first { seat.now.number ≡ 0 }
        ensures { result ≡ seat.now.splits }
    {
        seat.splits
    }

    /// The number of seats that are out beside the first one, which the first seat knows.
    pub fn seats(&self, seat: &Seat<B>) -> u16
        requires first { seat.now.number ≡ 0 }
        ensures { result ≡ seat.now.others_out }
    {
        seat.others_out
    }

    /// A new seat, split from the first one, which has seen what the first has. At most `TURNSTILE_SPLITS` can be made. It
    /// waits for nobody and takes no memory.
    pub fn split(&self, seat: &mut Seat<B>) -> Seat<B>
        requires turnstile { seat.old.id ≡ self.now }
        requires first { (seat.old.number ≡ 0) × (seat.old.has_value ≡ false) }
        requires room { seat.old.splits < TURNSTILE_SPLITS }
        ensures first { seat.new ≡ record seat.old { splits = seat.old.splits + 1; others_out = seat.old.others_out + 1 } }
        ensures next { result ≡ next_sitting seat.old }
    {
        let number = seat.splits + 1;
        let new_seat = self.table.shared.split_seat::<NewSeat>(&mut seat.seat);
        seat.splits = number;
        seat.others_out += 1;
        Seat {
            seat: new_seat,
            number,
            splits: 0,
            others_out: 0,
        }
    }

    /// Joins another seat into the first one, whose front then is the longer of both. The join is one atomic step, and a
    /// look after it tells what it left. It waits for nobody and takes no memory.
    pub fn join(&self, seat: &mut Seat<B>, other: Seat<B>)
        requires turnstile { (seat.old.id ≡ self.now) × (other.id ≡ self.now) }
        requires first { (seat.old.number ≡ 0) × (seat.old.has_value ≡ false) }
        requires idle { other.has_value ≡ false }
        ensures fronts { IsPrefix seat.old.front seat.new.front × IsPrefix other.front seat.new.front }
        ensures own { entries_of other.number seat.new.front ≡ entries_of other.number other.front }
        ensures joined { (s : ℕ) → Contains seat.old.joined_numbers s → entries_of s seat.new.front ≡ entries_of s seat.old.front }
        ensures seat { seat.new ≡ record seat.old { front = seat.new.front; others_out = seat.old.others_out - 1; joined_numbers = other.number ∷ seat.old.joined_numbers } }
    {
        let Seat {
            seat: other_seat,
            ..
        } = other;
        self.table
            .shared
            .join_seat::<LongerFront>(&mut seat.seat, other_seat);
        self.table.shared.load::<Compare>(&mut seat.seat, TICKET);
        seat.others_out = seat.others_out.saturating_sub(1);
    }

    /// The value, once all other seats were joined. Its history is the first seat's front.
    pub fn close(self, seat: Seat<B>) -> B
        requires turnstile { seat.id ≡ self }
        requires first { (seat.number ≡ 0) × (seat.has_value ≡ false) }
        requires last { seat.others_out ≡ 0 }
        ensures { B.history result ≡ seat.front }
    {
        let Turnstile { table } = self;
        let Seat { seat, .. } = seat;
        let mut closed = table.close_with(seat);
        let found = closed.take(VALUE);
        closed.free();
        let Some(value) = found else { unreachable!() };
        value
    }
}
