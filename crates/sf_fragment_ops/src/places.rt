//! Bytes put into a value, and parts taken out of it.
ghost use Rattle.std.specs.Prelude.{◌≡◌, ◌+◌, ◌-◌, ◌≤◌, ◌++◌, length, IfOk, OnOk, OnErr};
ghost use Rattle.sf_types.specs.declared.limits.TheConstants.{OBJECT_BYTES as OBJECT_SIZE};
ghost use Rattle.sf_types.specs.Values.Marks.{zero_byte};
ghost use Rattle.sf_types.specs.Values.Edits as edits;
ghost use Rattle.sf_fragment_ops.specs.EditCalls.{with_bytes};

use sf_chunk_map::Map;
use sf_types::Mem;
use std::alloc::Global;

// Bytes behind the last one. After want of memory the value is as before.
pub fn add_last(value: &mut Map, with: Map) -> Mem<()>
    requires { length value.old.bytes + length with.bytes ≤ OBJECT_SIZE }
    ensures ok { OnOk result (value.new ≡ with_bytes value.old (value.old.bytes ++ with.bytes)) }
    ensures err { OnErr result (value.new ≡ value.old) }
{
    let at = value.len();
    value.splice_in(at, 0, with)?;
    Ok(())
}

// Bytes over those from an offset on that isn't past the end.
fn put_within(value: &mut Map, offset: u64, with: Map) -> Mem<()>
    requires some { 1 ≤ offset }
    requires within { offset - 1 ≤ length value.old.bytes }
    requires most { offset - 1 + length with.bytes ≤ OBJECT_SIZE }
    ensures ok { OnOk result (value.new ≡ with_bytes value.old (edits.put zero_byte value.old.bytes offset with.bytes)) }
    ensures err { OnErr result (value.new ≡ value.old) }
{
    let at = offset - 1;
    let over = with.len().min(value.len() - at);
    value.splice_in(at, over, with)?;
    Ok(())
}

// Bytes behind the last one, after as many zeros as are missing before the offset.
fn put_behind(alloc: Global, value: &mut Map, offset: u64, with: Map) -> Mem<()>
    requires some { 1 ≤ offset }
    requires past { length value.old.bytes ≤ offset - 1 }
    requires most { offset - 1 + length with.bytes ≤ OBJECT_SIZE }
    ensures ok { OnOk result (value.new ≡ with_bytes value.old (edits.put zero_byte value.old.bytes offset with.bytes)) }
    ensures err { OnErr result (value.new ≡ value.old) }
{
    let mut padded = Map::zeros(alloc, offset - 1 - value.len())?;
    add_last(&mut padded, with)?;
    add_last(value, padded)
}

// Bytes over those from an offset on, as Write puts them. After want of memory the value is as before.
pub fn put(alloc: Global, value: &mut Map, offset: u64, with: Map) -> Mem<()>
    requires some { 1 ≤ offset }
    requires most { offset - 1 + length with.bytes ≤ OBJECT_SIZE }
    ensures ok { OnOk result (value.new ≡ with_bytes value.old (edits.put zero_byte value.old.bytes offset with.bytes)) }
    ensures err { OnErr result (value.new ≡ value.old) }
{
    if value.len() < offset - 1 {
        put_behind(alloc, value, offset, with)
    } else {
        put_within(value, offset, with)
    }
}

// So many bytes from an offset on give way to others. After want of memory the value is as before.
pub fn replace(value: &mut Map, amount: u64, offset: u64, with: Map) -> Mem<()>
    requires some { 1 ≤ offset }
    requires within { offset - 1 + amount ≤ length value.old.bytes }
    requires most { length value.old.bytes - amount + length with.bytes ≤ OBJECT_SIZE }
    ensures ok { OnOk result (value.new ≡ with_bytes value.old (edits.replace value.old.bytes amount offset with.bytes)) }
    ensures err { OnErr result (value.new ≡ value.old) }
{
    value.splice_in(offset - 1, amount, with)?;
    Ok(())
}

// Bytes go before the one at an offset, or behind the last one. After want of memory the value is as before.
pub fn insert(value: &mut Map, offset: u64, with: Map) -> Mem<()>
    requires some { 1 ≤ offset }
    requires within { offset - 1 ≤ length value.old.bytes }
    requires most { length value.old.bytes + length with.bytes ≤ OBJECT_SIZE }
    ensures ok { OnOk result (value.new ≡ with_bytes value.old (edits.insert value.old.bytes offset with.bytes)) }
    ensures err { OnErr result (value.new ≡ value.old) }
{
    value.splice_in(offset - 1, 0, with)?;
    Ok(())
}

// So many bytes from an offset on go. After want of memory the value is as before.
pub fn delete(alloc: Global, value: &mut Map, amount: u64, offset: u64) -> Mem<()>
    requires some { 1 ≤ offset }
    requires within { offset - 1 + amount ≤ length value.old.bytes }
    ensures ok { OnOk result (value.new ≡ with_bytes value.old (edits.delete value.old.bytes amount offset)) }
    ensures err { OnErr result (value.new ≡ value.old) }
{
    let _len = value.len();
    value.splice_in(offset - 1, amount, Map::empty(alloc))?;
    Ok(())
}

// The bytes from an offset on become zeros, so many or up to the end. Answers their number. After want of memory the value is
// as before.
pub fn erase(alloc: Global, value: &mut Map, amount: u64, offset: u64) -> Mem<u64>
    requires { 1 ≤ offset }
    ensures ok { OnOk result (value.new ≡ with_bytes value.old (edits.erase zero_byte value.old.bytes amount offset)) }
    ensures count { IfOk result (λ count. count ≡ edits.erased_count value.old.bytes amount offset) }
    ensures err { OnErr result (value.new ≡ value.old) }
{
    let at = value.len().min(offset - 1);
    let count = amount.min(value.len() - at);
    value.splice_in(at, count, Map::zeros(alloc, count)?)?;
    Ok(count)
}

// The first bytes stay, so many or all. After want of memory the value is as before.
pub fn trim(alloc: Global, value: &mut Map, len: u64) -> Mem<()>
    ensures ok { OnOk result (value.new ≡ with_bytes value.old (edits.trim value.old.bytes len)) }
    ensures err { OnErr result (value.new ≡ value.old) }
{
    let at = value.len().min(len);
    let rest = value.len() - at;
    value.splice_in(at, rest, Map::empty(alloc))?;
    Ok(())
}

// A part goes before the byte at an offset, or behind the last one. After want of memory the value is as before.
pub fn move_part(value: &mut Map, amount: u64, from: u64, to: u64) -> Mem<()>
    requires from { 1 ≤ from }
    requires part { from - 1 + amount ≤ length value.old.bytes }
    requires to { 1 ≤ to }
    requires target { to ≤ length value.old.bytes + 1 }
    ensures ok { OnOk result (value.new ≡ with_bytes value.old (edits.move value.old.bytes amount from to)) }
    ensures err { OnErr result (value.new ≡ value.old) }
{
    let _len = value.len();
    if to < from {
        value.swap_in(to - 1, from - to, amount)
    } else if to <= from + amount {
        Ok(())
    } else {
        value.swap_in(from - 1, amount, to - (from + amount))
    }
}
