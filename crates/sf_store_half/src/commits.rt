//! What a commit makes of versions, notes and the stock.
ghost use Rattle.std.specs.Prelude.{◌≡◌, ◌+◌, ◌-◌, ◌≤◌, ◌<◌, ◌^◌, ◌++◌, [], ◌∷◌, length, drop, All, IfOk, OnOk};
ghost use Rattle.std.specs.List.Sorted.{IsStrictlySortedBy};
ghost use Rattle.std.specs.Map.{keys_of};
ghost use Rattle.sf_types.specs.declared.holder.Holder.TheVariants.{Session};
ghost use Rattle.sf_types.specs.Values.Names.{name_cmp};
ghost use Rattle.sf_types.specs.Calls.TransactionEnds.{floor_after};
ghost use Rattle.sf_retention.specs.Notes.{due_pairs};
ghost use Rattle.sf_stock.specs.Stocks.{IsSound, with_holder};
ghost use Rattle.sf_versions.specs.VersionTables.{after_commit};
ghost use Rattle.sf_store_half.specs.Inside.Commits.{CanHold, IsPlan, birth_count, births_of_change, displaced_notes, row_births, stock_with};
ghost use Rattle.sf_store_half.specs.Inside.Floors.{AreDisplaced, stock_without, versions_without};

use crate::floors::give_up;
use sf_retention::{Note, Pair, PairList, Retention, horizon};
use sf_stock::Stock;
use sf_types::{Births, Holder, List, Mem, Name, Options, OutOfMemory, TryCopy};
use sf_versions::{Change, ChangeList, Versions};
use std::alloc::Global;

/// What a row's new version holds.
#[derive(Drop)]
pub struct RowBirths {
    pub row: Name,
    pub births: Births,
}

/// What a commit needs that takes memory, made before anything changes: its number; the floor after it; what the new versions
/// hold, in the order of rows, and how many births that is; the notes of the versions that it displaces; and the versions that
/// are due at the floor after it.
#[derive(Drop)]
pub struct CommitPlan {
    pub number: u64,
    pub floor: u64,
    pub held: List<RowBirths>,
    pub births: u64,
    pub displaced: List<Note>,
    pub due: PairList,
}

// What a row's new version holds.
fn births_of(alloc: Global, change: &Change) -> Mem<RowBirths>
    ensures { IfOk result (λ own. own ≡ births_of_change change.now) }
{
    let row = change.name.copy()?;
    let births = match &change.value {
        Some(map) => map.births()?,
        None => Births::new(alloc),
    };
    Ok(RowBirths { row, births })
}

// What the new versions of a commit hold, row by row.
fn row_births(alloc: Global, changes: &ChangeList) -> Mem<List<RowBirths>>
    ensures { IfOk result (λ held. held ≡ row_births changes.now) }
{
    // There are no more changes than a count can tell.
    let _count = changes.len();
    let mut held = List::new(alloc);
    let mut at = 0;
    while let Some(change) = changes.get(at) {
        held.push(births_of(alloc, change)?)?;
        at += 1;
    }
    Ok(held)
}

// How many births the new versions hold.
fn birth_count(held: &[RowBirths]) -> Mem<u64>
    ensures { IfOk result (λ births. births ≡ birth_count held.now) }
{
    let mut births = 0u64;
    for own in held {
        let Some(sum) = births.checked_add(own.births.as_slice().len() as u64) else {
            return Err(OutOfMemory);
        };
        births = sum;
    }
    Ok(births)
}

// Puts the note of the version that a change displaces behind others, where the row has one. After want of memory nothing has
// changed.
fn note_displaced(
    versions: &Versions,
    number: u64,
    change: &Change,
    notes: &mut List<Note>,
) -> Mem<()>
    requires { number ≡ versions.now.held.now + 1 }
    ensures { OnOk result (notes.new ≡ notes.old ++ displaced_notes versions.now.held (change.now ∷ [])) }
{
    match versions.last(&change.name) {
        Some(from) => notes.push(Note {
            row: change.name.copy()?,
            from,
            until: number,
        }),
        None => Ok(()),
    }
}

// The notes of the versions that a commit displaces, row by row.
fn displaced_notes(
    alloc: Global,
    versions: &Versions,
    number: u64,
    changes: &ChangeList,
) -> Mem<List<Note>>
    requires { number ≡ versions.now.held.now + 1 }
    ensures { IfOk result (λ notes. notes ≡ displaced_notes versions.now.held changes.now) }
{
    // There are no more changes than a count can tell.
    let _count = changes.len();
    let mut notes = List::new(alloc);
    let mut at = 0;
    while let Some(change) = changes.get(at) {
        note_displaced(versions, number, change, &mut notes)?;
        at += 1;
    }
    Ok(notes)
}

// Puts the version of a note behind others, where it is due.
fn push_due(due: &mut PairList, note: &Note, floor: u64) -> Mem<()>
    ensures { OnOk result (due.new ≡ due.old ++ due_pairs (note.now ∷ []) floor) }
{
    if note.until <= floor {
        due.push(Pair {
            name: note.row.copy()?,
            from: note.from,
        })
    } else {
        Ok(())
    }
}

// The versions that are due at a floor, once these notes stand behind the others.
fn due_versions(notes: &Retention, displaced: &[Note], floor: u64) -> Mem<PairList>
    ensures { IfOk result (λ due. due ≡ due_pairs (notes.now.held ++ displaced.now) floor) }
{
    let mut due = notes.due(floor)?;
    for note in displaced {
        push_due(&mut due, note, floor)?;
    }
    Ok(due)
}

// The floor after a commit that makes the number of commits `number`.
fn floor_after(options: &Options, floor: u64, number: u64) -> u64
    ensures { result ≡ floor_after options.now floor number }
{
    if options.max {
        return floor;
    }
    floor.max(horizon(number, options.retention))
}

/// The plan of a commit, which takes time in proportion to its changes and to the versions that become due. A commit whose
/// number isn't below 2^64 wants memory.
pub fn plan_commit(
    alloc: Global,
    options: &Options,
    versions: &Versions,
    notes: &Retention,
    floor: u64,
    changes: &ChangeList,
) -> Mem<CommitPlan>
    ensures plan { IfOk result (λ plan. IsPlan versions.now.held notes.now.held changes.now plan) }
    ensures floor { IfOk result (λ plan. plan.floor ≡ floor_after options.now floor (versions.now.held.now + 1)) }
{
    let Some(number) = versions.now().checked_add(1) else {
        return Err(OutOfMemory);
    };
    let floor = floor_after(options, floor, number);
    let held = row_births(alloc, changes)?;
    let births = birth_count(held.as_slice())?;
    let displaced = displaced_notes(alloc, versions, number, changes)?;
    let due = due_versions(notes, displaced.as_slice(), floor)?;
    Ok(CommitPlan {
        number,
        floor,
        held,
        births,
        displaced,
        due,
    })
}

// Makes a commit for whose changes there is room.
fn commit_within(versions: &mut Versions, changes: ChangeList)
    requires within { versions.old.held.now < 2 ^ 64 - 1 }
    requires room { length changes ≤ versions.old.spare }
    ensures { versions.new.held ≡ after_commit versions.old.held changes }
{
    // There is room, so that it takes no memory.
    let _number = versions.commit(changes);
}

// Puts the notes of commit `number`, for which there is room, behind the others, and takes the first `count` away.
fn take_notes(notes: &mut Retention, number: u64, displaced: List<Note>, count: usize)
    requires until { All (λ note. note.until ≤ number) notes.old.held }
    requires displaced { All (λ note. note.until ≡ number) displaced }
    requires count { count ≤ length (notes.old.held ++ displaced) }
    requires room { length displaced ≤ notes.old.spare }
    ensures { notes.new.held ≡ drop count (notes.old.held ++ displaced) }
{
    for note in displaced.into_vec() {
        let Note { row, from, until } = note;
        notes.note_within(row, from, until);
    }
    notes.done(count);
}

// The new versions of a commit hold their births, and then a session these. There is room for all.
fn hold_births(stock: &mut Stock, number: u64, held: List<RowBirths>, session: u16, kept: Births)
    requires births { CanHold stock.old.held number held kept }
    requires room { birth_count held + length kept ≤ stock.old.spare }
    ensures held { stock.new.held ≡ with_holder (stock_with stock.old.held number held) (Session session) kept }
    ensures sound { IsSound stock.old.held }
{
    let _sound = stock.next_birth();
    for own in held.into_vec() {
        let RowBirths { row, births } = own;
        stock.hold(Holder::Version(row, number), births);
    }
    stock.hold(Holder::Session(session), kept);
}

// The room for new contents, and for the births of versions and of a session.
fn room_of(items: u64, versions: u64, session: u64) -> Mem<u64>
    ensures { IfOk result (λ room. room ≡ items + versions + session) }
{
    let Some(births) = items.checked_add(versions) else {
        return Err(OutOfMemory);
    };
    match births.checked_add(session) {
        Some(room) => Ok(room),
        None => Err(OutOfMemory),
    }
}

/// Makes the room that a planned commit of these changes takes, with new contents that take so many items and a session that holds
/// `kept`. Nothing that is held changes.
pub fn make_commit_room(
    versions: &mut Versions,
    notes: &mut Retention,
    stock: &mut Stock,
    changes: &ChangeList,
    plan: &CommitPlan,
    items: u64,
    kept: &Births,
) -> Mem<()>
    ensures versions { versions.new.held ≡ versions.old.held }
    ensures notes { notes.new.held ≡ notes.old.held }
    ensures stock { stock.new.held ≡ stock.old.held }
    ensures versions_room { OnOk result (length changes.now ≤ versions.new.spare) }
    ensures notes_room { OnOk result (length plan.now.displaced ≤ notes.new.spare) }
    ensures stock_room { OnOk result (items + plan.now.births + length kept.now ≤ stock.new.spare) }
    ensures rising { IsStrictlySortedBy name_cmp (keys_of changes.now) }
{
    let rows = changes.len() as u64;
    let room = room_of(items, plan.births, kept.as_slice().len() as u64)?;
    versions.make_room(rows)?;
    notes.make_room(plan.displaced.len() as u64)?;
    stock.make_room(room)
}

/// Makes a planned commit: each row that it names gets its version, which holds its births; then the session holds `kept`; and
/// the versions that are due are given up. The births that nobody holds any more then wait to be parked. It takes no memory.
pub fn make_commit(
    versions: &mut Versions,
    notes: &mut Retention,
    stock: &mut Stock,
    changes: ChangeList,
    plan: CommitPlan,
    session: u16,
    kept: Births,
)
    requires plan { IsPlan versions.old.held notes.old.held changes plan }
    requires notes { All (λ note. note.until ≤ plan.number) notes.old.held }
    requires due { AreDisplaced (after_commit versions.old.held changes) plan.due }
    requires births { CanHold stock.old.held plan.number plan.held kept }
    requires versions_room { length changes ≤ versions.old.spare }
    requires notes_room { length plan.displaced ≤ notes.old.spare }
    requires stock_room { plan.births + length kept ≤ stock.old.spare }
    ensures versions { versions.new.held ≡ versions_without (after_commit versions.old.held changes) plan.due }
    ensures notes { notes.new.held ≡ drop (length plan.due) (notes.old.held ++ plan.displaced) }
    ensures stock { stock.new.held ≡ stock_without (with_holder (stock_with stock.old.held plan.number plan.held) (Session session) kept) plan.due }
    ensures sound { IsSound stock.old.held }
    ensures after { IsSound stock.new.held }
{
    let CommitPlan {
        number,
        held,
        displaced,
        due,
        ..
    } = plan;
    commit_within(versions, changes);
    take_notes(notes, number, displaced, due.len());
    hold_births(stock, number, held, session, kept);
    give_up(versions, stock, due);
    let _after = stock.next_birth();
}
