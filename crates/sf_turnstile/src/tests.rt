//! Seats that take turns at a list of entries.
ghost use Rattle.std.specs.Prelude.{◌≡◌, ◌≢◌, ◌+◌, ◌-◌, ◌<◌, ◌++◌, ◌∷◌, [], false, IfOk, OnOk};
ghost use mathlib.Core.List.{IsPrefix};
ghost use Rattle.sf_types.specs.Orders.Fronts.{entries_of};
ghost use Rattle.sf_turnstile.specs.TestSeats.{MayAdd};

use crate::limits::TURNSTILE_SPLITS;
use crate::seat::Seat;
use crate::told::Told;
use crate::turnstile::Turnstile;
use sf_types::{Call, Entry, History, Kind, LocName, Mem, OutOfMemory, Token};
use std::alloc::Global;
use std::sync::Wait;
use std::test::*;
use std::thread::{Threads, join};

// A value that is its history.
#[derive(Drop)]
struct Log {
    entries: History,
}

impl Told for Log {
    ghost history = { λ log. log.entries };

    fn length(&self) -> u64 {
        self.entries.len() as u64
    }
}

// The trim that a session makes at this turn of its own, counted from 0.
fn trim(alloc: Global, session: u16, turn: u64) -> Mem<Entry>
    ensures { IfOk result (λ entry. entry.token.session ≡ session) }
{
    let Some(at) = LocName::new(alloc, b"x")? else {
        return Err(OutOfMemory);
    };
    Ok(Entry {
        token: Token {
            session,
            kind: Kind::Call,
        },
        call: Call::Trim { at, length: turn },
    })
}

// A seat adds an entry of its session at its turn.
fn turn<R: Wait>(rt: &R, turnstile: &Turnstile<Log>, seat: &mut Seat<Log>, entry: Entry) -> Mem<()>
    requires turnstile { seat.old.id ≡ turnstile.now }
    requires idle { seat.old.has_value ≡ false }
    requires own { (entry.token.session ≡ seat.old.number) × (seat.old.number ≢ 0) }
    ensures seat { seat.new ≡ record seat.old { front = seat.new.front } }
    ensures front { IsPrefix seat.old.front seat.new.front }
    ensures own { OnOk result (entries_of seat.old.number seat.new.front ≡ entries_of seat.old.number seat.old.front ++ entry ∷ []) }
{
    let mut held = turnstile.take(rt, seat);
    let added = held.value().entries.push(entry);
    turnstile.hand_on(seat, held);
    added
}

// A seat adds its session's entry for this turn of its own.
fn numbered_turn<R: Wait>(
    rt: &R,
    alloc: Global,
    turnstile: &Turnstile<Log>,
    seat: &mut Seat<Log>,
    number: u64,
) -> Mem<()>
    requires { MayAdd turnstile.now seat.old }
    ensures { MayAdd turnstile.now seat.new }
{
    let entry = trim(alloc, seat.number(), number)?;
    turn(rt, turnstile, seat, entry)
}

// A new seat, which may take turns.
fn new_seat(turnstile: &Turnstile<Log>, first: &mut Seat<Log>) -> Seat<Log>
    requires turnstile { first.old.id ≡ turnstile.now }
    requires first { (first.old.number ≡ 0) × (first.old.has_value ≡ false) }
    requires room { first.old.splits < TURNSTILE_SPLITS }
    ensures first { first.new ≡ record first.old { splits = first.old.splits + 1; others_out = first.old.others_out + 1 } }
    ensures next { MayAdd turnstile.now result }
{
    turnstile.split(first)
}

// A seat comes back into the first one.
fn join_seat(turnstile: &Turnstile<Log>, first: &mut Seat<Log>, seat: Seat<Log>)
    requires turnstile { first.old.id ≡ turnstile.now }
    requires first { (first.old.number ≡ 0) × (first.old.has_value ≡ false) }
    requires seat { MayAdd turnstile.now seat }
    ensures same { (first.new.id ≡ first.old.id) × (first.new.number ≡ 0) × (first.new.has_value ≡ false) }
    ensures others { first.new.others_out ≡ first.old.others_out - 1 }
{
    turnstile.join(first, seat);
}

// Two seats beside the first one add an entry each, in this order.
fn three_seats<R: Wait>(rt: &R, alloc: Global) -> Mem<Log> {
    let log = Log {
        entries: History::new(alloc),
    };
    let (turnstile, mut first) = Turnstile::new(alloc, log)?;
    let mut one = new_seat(&turnstile, &mut first);
    let mut two = new_seat(&turnstile, &mut first);
    numbered_turn(rt, alloc, &turnstile, &mut one, 7)?;
    numbered_turn(rt, alloc, &turnstile, &mut two, 9)?;
    join_seat(&turnstile, &mut first, one);
    join_seat(&turnstile, &mut first, two);
    Ok(turnstile.close(first))
}

#[test]
fn seats_take_turns(rt: HostRuntime) -> Result<(), Fail> {
    let log = three_seats(&rt, rt.alloc())?;
    let mut sessions = Vec::new(rt.alloc());
    for entry in log.entries.as_slice() {
        sessions.push(entry.token.session)?;
    }
    assert_eq!(rt; sessions.as_slice(), &[1, 2][..]);
    assert_eq!(rt; log.length(), 2);
    Ok(())
}

// The turns of each seat that has a thread.
const TURNS: u64 = 10_000;

// A seat that comes back from a thread.
type Done = (Seat<Log>, Mem<()>);

// A seat takes all its turns.
fn all_turns<R: Wait>(
    rt: &R,
    alloc: Global,
    turnstile: &Turnstile<Log>,
    mut seat: Seat<Log>,
) -> Done
    requires { MayAdd turnstile.now seat }
    ensures { MayAdd turnstile.now result.0 }
{
    for number in 0..TURNS {
        if let Err(none) = numbered_turn(rt, alloc, turnstile, &mut seat, number) {
            return (seat, Err(none));
        }
    }
    (seat, Ok(()))
}

// Two seats take all their turns in two threads.
fn two_threads<R: Threads + Wait + Sync>(
    rt: &R,
    alloc: Global,
    turnstile: &Turnstile<Log>,
    one: Seat<Log>,
    two: Seat<Log>,
) -> (Done, Done)
    requires { MayAdd turnstile.now one × MayAdd turnstile.now two }
    ensures first { MayAdd turnstile.now result.0.0 }
    ensures second { MayAdd turnstile.now result.1.0 }
{
    join(
        rt,
        || -> Done
            requires { MayAdd turnstile.now one }
            ensures { MayAdd turnstile.entry.now result.0 }
        { all_turns(rt, alloc, turnstile, one) },
        || -> Done
            requires { MayAdd turnstile.now two }
            ensures { MayAdd turnstile.entry.now result.0 }
        { all_turns(rt, alloc, turnstile, two) },
    )
}

// Four seats take all their turns in four threads.
fn four_threads<R: Threads + Wait + Sync>(rt: &R, alloc: Global) -> Mem<Log> {
    let log = Log {
        entries: History::new(alloc),
    };
    let (turnstile, mut first) = Turnstile::new(alloc, log)?;
    let one = new_seat(&turnstile, &mut first);
    let two = new_seat(&turnstile, &mut first);
    let three = new_seat(&turnstile, &mut first);
    let four = new_seat(&turnstile, &mut first);
    let (((one, a), (two, b)), ((three, c), (four, d))) = join(
        rt,
        || -> (Done, Done)
            requires { MayAdd turnstile one × MayAdd turnstile two }
            ensures { MayAdd turnstile result.0.0 × MayAdd turnstile result.1.0 }
        { two_threads(rt, alloc, &turnstile, one, two) },
        || -> (Done, Done)
            requires { MayAdd turnstile three × MayAdd turnstile four }
            ensures { MayAdd turnstile result.0.0 × MayAdd turnstile result.1.0 }
        { two_threads(rt, alloc, &turnstile, three, four) },
    );
    a?;
    b?;
    c?;
    d?;
    join_seat(&turnstile, &mut first, one);
    join_seat(&turnstile, &mut first, two);
    join_seat(&turnstile, &mut first, three);
    join_seat(&turnstile, &mut first, four);
    Ok(turnstile.close(first))
}

// Each session's entries stand in its order, and all are there.
#[test]
fn threads_take_turns(rt: HostRuntime) -> Result<(), Fail> {
    let log = four_threads(&rt, rt.alloc())?;
    let mut counts = [0; 5];
    for entry in log.entries.as_slice() {
        let Call::Trim { length, .. } = &entry.call else {
            return Err(Fail::new("a call that no session made"));
        };
        let count = &mut counts[usize::from(entry.token.session) % 5];
        assert_eq!(rt; *length, *count);
        *count = count.wrapping_add(1);
    }
    assert_eq!(rt; counts, [0, TURNS, TURNS, TURNS, TURNS]);
    Ok(())
}
