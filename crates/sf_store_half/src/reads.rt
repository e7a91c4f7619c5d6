//! What the store's half tells of its rows.
ghost use Rattle.std.specs.Prelude.{◌≡◌, ◌≤◌, ◌++◌, true, length, map, filter, slice_get, All, IfOk, IfSome, OnOk, Some, None};
ghost use Rattle.std.specs.Map.Iter.{deref_pair};
ghost use Rattle.std.specs.Option.{option_map};
ghost use Rattle.sf_types.specs.Values.Marks.{Value};
ghost use Rattle.sf_types.specs.Inside.NameMaps.{NameMap};
ghost use Rattle.sf_types.specs.Inside.Births.{rising_births};
ghost use Rattle.sf_types.specs.Orders.RowEnds.{row_ends, row_ends_of};
ghost use Rattle.sf_types.specs.Table.Versions.{present_rows};
ghost use Rattle.sf_types.specs.Halves.Asks.{Half};
ghost use Rattle.sf_types.specs.Halves.Flushes.{table_of_half};
ghost use Rattle.sf_lifetimes.specs.Ledgers.{has_birth};
ghost use Rattle.sf_stock.specs.Stocks.{block_count, is_stocked};
ghost use Rattle.sf_versions.specs.Inside.Spans.{current_row};
ghost use Rattle.sf_store_half.specs.Fields.{Keeps};
ghost use Rattle.sf_store_half.specs.Reads.{births_of_rows, half_uncommitted, last_rows, present_at};

use crate::row_sums::sum_of_value;
use crate::store_half::StoreHalf;
use sf_birth_union::BirthUnion;
use sf_chunk_map::Map;
use sf_chunk_sizes::blocks;
use sf_stock::Stock;
use sf_types::{Births, CONTENT_BYTES, List, Mem, Name, OutOfMemory, RowEnd, RowList, TryCopy};
use std::alloc::Global;

// Puts a row last, where it is present.
fn push_present<'a>(
    rows: &mut Vec<(&'a Name, &'a Map)>,
    row: Option<(&'a Name, Option<&'a Map>)>,
) -> Mem<()>
    ensures { OnOk result (map deref_pair rows.new.items ≡ map deref_pair rows.old.items ++ present_at (option_map current_row row.entry)) }
{
    if let Some((name, Some(map))) = row {
        rows.push((name, map))?;
    }
    Ok(())
}

// What is told of some rows.
fn row_ends(alloc: Global, rows: &[(&Name, &Map)], buffer: &mut [u8]) -> Mem<RowList>
    requires { 1 ≤ length buffer.old }
    ensures { IfOk result (λ ends. ends ≡ row_ends (map deref_pair rows.now)) }
{
    let mut ends = List::new(alloc);
    for row in rows {
        ends.push(RowEnd {
            name: row.0.copy()?,
            len: row.1.len(),
            sum: sum_of_value(row.1, buffer),
        })?;
    }
    Ok(ends)
}

// The births that occur in the values of some rows, rising.
fn births_of_rows(alloc: Global, rows: &[(&Name, &Map)]) -> Mem<Births>
    ensures { IfOk result (λ births. births ≡ rising_births (births_of_rows (map deref_pair rows.now))) }
{
    let mut union = BirthUnion::new(alloc);
    for row in rows {
        union.add(&row.1.births()?)?;
    }
    union.into_births()
}

// The blocks of some births.
fn blocks_of_births(stock: &Stock, births: &Births) -> Mem<u64>
    requires { All (λ birth. is_stocked stock.now.held.stocked birth ≡ true) births.now }
    ensures { IfOk result (λ blocks. blocks ≡ block_count (filter (λ x. has_birth births.now x.birth) stock.now.held.stocked)) }
{
    // A birth takes as many blocks as its content.
    let _sound = stock.next_birth();
    let mut sum = 0u64;
    for birth in births.as_slice() {
        let own = match stock.content_of(*birth) {
            Some(content) => blocks(content.len() as u64),
            None => 0,
        };
        let Some(more) = sum.checked_add(own) else {
            return Err(OutOfMemory);
        };
        sum = more;
    }
    Ok(sum)
}

// A row, where it is present and none is left to be passed. Else a present row is passed.
fn pass_row<'a>(
    left: &mut u64,
    row: Option<(&'a Name, Option<&'a Map>)>,
) -> Option<(&'a Name, &'a Map)>
    ensures found { IfSome result (λ found. (rest : NameMap Value) → slice_get (present_at (option_map current_row row.entry) ++ rest) left.old ≡ Some (deref_pair found)) }
    ensures passed { result ≡ None → (rest : NameMap Value) → slice_get (present_at (option_map current_row row.entry) ++ rest) left.old ≡ slice_get rest left.new }
{
    let Some((name, Some(map))) = row else {
        return None;
    };
    if *left == 0 {
        return Some((name, map));
    }
    *left -= 1;
    None
}

impl StoreHalf {
    // The rows that are present, in byte order of names.
    fn present_rows(&self) -> Mem<Vec<(&Name, &Map)>>
        ensures { IfOk result (λ rows. map deref_pair rows.items ≡ last_rows self.now.versions.rows) }
    {
        let mut rows: Vec<(&Name, &Map)> = Vec::new(*self.sessions.allocator());
        for at in 0..self.versions.len() {
            push_present(&mut rows, self.versions.row(at))?;
        }
        Ok(rows)
    }

    /// The rows that are present, in byte order of names, each with the length in bytes and the digest of its value.
    pub fn rows(&self) -> Mem<RowList>
        ensures { IfOk result (λ rows. (h : Half) → Keeps self.now h → rows ≡ row_ends_of (table_of_half h)) }
    {
        let alloc = *self.sessions.allocator();
        let _rising = self.versions.len();
        let rows = self.present_rows()?;
        let mut buffer = Vec::from_elem(alloc, 0u8, CONTENT_BYTES as usize)?;
        row_ends(alloc, rows.as_slice(), buffer.as_mut_slice())
    }

    /// The blocks of those births in reach that occur in no row's current value.
    pub fn uncommitted(&self) -> Mem<u64>
        ensures { IfOk result (λ blocks. (h : Half) → Keeps self.now h → blocks ≡ half_uncommitted h) }
    {
        let _sound = self.stock.next_birth();
        let _rising = self.versions.len();
        let rows = self.present_rows()?;
        let births = births_of_rows(*self.sessions.allocator(), rows.as_slice())?;
        let committed = blocks_of_births(&self.stock, &births)?;
        Ok(self.stock.live_blocks() - committed)
    }

    /// The k-th row that is present, in byte order of names and counted from 0, with its value. None exactly where there are at
    /// most k. It takes no memory, and walks over the rows before it.
    pub fn row_at(&self, k: u64) -> Option<(&Name, &Map)>
        ensures { (h : Half) → Keeps self.now h → option_map deref_pair result ≡ slice_get (present_rows (table_of_half h)) k }
    {
        let mut left = k;
        for at in 0..self.versions.len() {
            if let Some(found) = pass_row(&mut left, self.versions.row(at)) {
                return Some(found);
            }
        }
        None
    }
}
