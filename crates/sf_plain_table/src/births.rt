//! Births of values, rising.
ghost use Rattle.std.specs.Prelude.{◌≡◌, [], map, filter_map, flat_map, IfOk};
ghost use Rattle.std.specs.Option.{option_map_or};
ghost use Rattle.sf_types.specs.Inside.Births.{with_birth, rising_births};
ghost use Rattle.sf_types.specs.Values.Marks.{birth_of_mark, births_in};
ghost use Rattle.sf_types.specs.Space.Reach.{values_in, session_births};

use crate::locator::Locator;
use crate::marked::{Mark, Marked};
use crate::rows::{RowState, Rows};
use crate::savepoint::Savepoint;
use crate::session::Session;
use crate::value::Value;
use sf_types::{LocName, Mem, NameMap};
use std::alloc::Global;

// A rising list with one birth more, which stands in it once.
fn with_birth(alloc: Global, birth: u128, rising: &[u128]) -> Mem<Vec<u128>>
    ensures { IfOk result (λ all. all.items ≡ with_birth birth rising.now) }
{
    let mut all = Vec::new(alloc);
    for at in 0..rising.len() {
        let other = rising[at];
        if birth < other {
            all.push(birth)?;
            all.extend_from_slice(&rising[at..])?;
            return Ok(all);
        }
        if birth == other {
            all.extend_from_slice(&rising[at..])?;
            return Ok(all);
        }
        all.push(other)?;
    }
    all.push(birth)?;
    Ok(all)
}

/// The births of any list, rising, each once.
pub fn rising_births(alloc: Global, births: Vec<u128>) -> Mem<Vec<u128>>
    ensures { IfOk result (λ rising. rising.items ≡ rising_births births.items) }
{
    let mut rising = Vec::new(alloc);
    let mut left = births.len();
    while left > 0 {
        left -= 1;
        rising = with_birth(alloc, births[left], &rising)?;
    }
    Ok(rising)
}

// The birth that a byte's mark names, or none.
fn birth_of(m: &Marked) -> Option<u128>
    ensures { result ≡ birth_of_mark m.now.mark }
{
    match m.mark {
        Mark::Zero => None,
        Mark::Fresh => None,
        Mark::Stored { birth, .. } => Some(birth),
    }
}

// The births that marked bytes name, one for each byte that is stored.
fn births_of_bytes(alloc: Global, bytes: &[Marked]) -> Mem<Vec<u128>>
    ensures { IfOk result (λ births. births.items ≡ filter_map (λ m. birth_of_mark m.mark) bytes.now) }
{
    let mut births = Vec::new(alloc);
    for m in bytes {
        if let Some(birth) = birth_of(m) {
            births.push(birth)?;
        }
    }
    Ok(births)
}

/// The births that occur in a value, rising.
pub fn births_in(alloc: Global, value: &Value) -> Mem<Vec<u128>>
    ensures { IfOk result (λ births. births.items ≡ births_in value.now) }
{
    rising_births(alloc, births_of_bytes(alloc, &value.bytes)?)
}

// The births of what is said of a row: those of its value, and none where it is absent.
fn births_of_state(alloc: Global, state: &RowState) -> Mem<Vec<u128>>
    ensures { IfOk result (λ births. births.items ≡ option_map_or births_in state.now []) }
{
    match state.value() {
        Some(value) => births_in(alloc, value),
        None => Ok(Vec::new(alloc)),
    }
}

/// The births of the values that are present in a map, value by value.
pub fn births_of_rows(alloc: Global, rows: &Rows) -> Mem<Vec<u128>>
    ensures { IfOk result (λ births. births.items ≡ flat_map births_in (values_in rows.now)) }
{
    let mut births = Vec::new(alloc);
    for (_, state) in rows.as_map() {
        births.append(&mut births_of_state(alloc, state)?)?;
    }
    Ok(births)
}

// The births of the values of locators, locator by locator.
fn births_of_locators(alloc: Global, locators: &NameMap<LocName, Locator>) -> Mem<Vec<u128>>
    ensures { IfOk result (λ births. births.items ≡ flat_map births_in (map (λ e. e.1.value) locators.now)) }
{
    let mut births = Vec::new(alloc);
    for (_, locator) in locators.as_map() {
        births.append(&mut births_in(alloc, &locator.value)?)?;
    }
    Ok(births)
}

// The births of the values of savepoints, savepoint by savepoint.
fn births_of_savepoints(alloc: Global, savepoints: &[Savepoint]) -> Mem<Vec<u128>>
    ensures { IfOk result (λ births. births.items ≡ flat_map births_in (flat_map (λ x. values_in x.working) savepoints.now)) }
{
    let mut births = Vec::new(alloc);
    for savepoint in savepoints {
        births.append(&mut births_of_rows(alloc, &savepoint.working)?)?;
    }
    Ok(births)
}

/// The births that a session's values name, rising.
pub fn session_births(session: &Session) -> Mem<Vec<u128>>
    ensures { IfOk result (λ births. births.items ≡ session_births session.now) }
{
    let alloc = session.alloc;
    let mut births = births_of_rows(alloc, &session.working)?;
    births.append(&mut births_of_locators(alloc, &session.locators)?)?;
    births.append(&mut births_of_savepoints(alloc, &session.savepoints)?)?;
    rising_births(alloc, births)
}
