//! Edits of a list of items, which may be marked bytes or plain ones: each is its definition.
ghost use Rattle.std.specs.Prelude.{◌≡◌, ◌+◌, ◌-◌, ◌++◌, length, take, drop, replicate, OnOk, OnErr, IfOk};
ghost use Rattle.sf_types.specs.Values.Edits as edits;

use sf_types::Mem;
use std::alloc::Global;

/// The first items of a list, so many or all.
pub fn front<T>(v: &[T], count: u64) -> &[T]
    ensures { result.now ≡ take count v.now }
{
    &v[..count.min(v.len() as u64) as usize]
}

/// The items of a list behind the first ones, so many.
pub fn behind<T>(v: &[T], count: u64) -> &[T]
    ensures { result.now ≡ drop count v.now }
{
    &v[count.min(v.len() as u64) as usize..]
}

/// The items from an offset on, so many or up to the end.
pub fn part<T: Copy>(v: &[T], amount: u64, offset: u64) -> &[T]
    ensures { result.now ≡ edits.part v.now amount offset }
{
    front(behind(v, offset.saturating_sub(1)), amount)
}

// The items before an offset.
fn before<T: Copy>(v: &[T], offset: u64) -> &[T]
    ensures { result.now ≡ take (offset - 1) v.now }
{
    front(v, offset.saturating_sub(1))
}

// The items from an offset on, but for the first ones of them.
fn after<T: Copy>(v: &[T], offset: u64, amount: u64) -> &[T]
    ensures { result.now ≡ drop (offset - 1 + amount) v.now }
{
    behind(behind(v, offset.saturating_sub(1)), amount)
}

// Lists one behind the other.
fn joined<T: Copy>(alloc: Global, first: &[T], second: &[T], third: &[T]) -> Mem<Vec<T>>
    ensures { IfOk result (λ all. all.items ≡ first.now ++ (second.now ++ third.now)) }
{
    let mut all = Vec::new(alloc);
    all.extend_from_slice(first)?;
    all.extend_from_slice(second)?;
    all.extend_from_slice(third)?;
    Ok(all)
}

// So many equal items.
fn repeated<T: Copy>(alloc: Global, item: T, count: u64) -> Mem<Vec<T>>
    ensures { IfOk result (λ items. items.items ≡ replicate count item) }
{
    let mut items = Vec::new(alloc);
    for _ in 0..count {
        items.push(item)?;
    }
    Ok(items)
}

/// Put: items over those from an offset on, in a list that was made long enough with zeros to reach the offset. After want of
/// memory the list is as before.
pub fn put<T: Copy>(zero: T, v: &mut Vec<T>, offset: u64, items: &[T]) -> Mem<()>
    ensures ok { OnOk result (v.new.items ≡ edits.put zero v.old.items offset items.now) }
    ensures err { OnErr result (v.new.items ≡ v.old.items) }
{
    let alloc = *v.allocator();
    let missing = offset.saturating_sub(1).saturating_sub(v.len() as u64);
    let padding = repeated(alloc, zero, missing)?;
    let long = joined(alloc, v, &padding, &[])?;
    let rest = after(&long, offset, items.len() as u64);
    *v = joined(alloc, before(&long, offset), items, rest)?;
    Ok(())
}

/// Insert: items before the one at an offset. After want of memory the list is as before.
pub fn insert<T: Copy>(v: &mut Vec<T>, offset: u64, items: &[T]) -> Mem<()>
    ensures ok { OnOk result (v.new.items ≡ edits.insert v.old.items offset items.now) }
    ensures err { OnErr result (v.new.items ≡ v.old.items) }
{
    *v = joined(
        *v.allocator(),
        before(v, offset),
        items,
        after(v, offset, 0),
    )?;
    Ok(())
}

/// Replace: items where so many others stood from an offset on. After want of memory the list is as before.
pub fn replace<T: Copy>(v: &mut Vec<T>, amount: u64, offset: u64, items: &[T]) -> Mem<()>
    ensures ok { OnOk result (v.new.items ≡ edits.replace v.old.items amount offset items.now) }
    ensures err { OnErr result (v.new.items ≡ v.old.items) }
{
    *v = joined(
        *v.allocator(),
        before(v, offset),
        items,
        after(v, offset, amount),
    )?;
    Ok(())
}

/// Delete: the list without so many items from an offset on. After want of memory the list is as before.
pub fn delete<T: Copy>(v: &mut Vec<T>, amount: u64, offset: u64) -> Mem<()>
    ensures ok { OnOk result (v.new.items ≡ edits.delete v.old.items amount offset) }
    ensures err { OnErr result (v.new.items ≡ v.old.items) }
{
    replace(v, amount, offset, &[])
}

/// Move: a part goes before the item at the offset `to`, which is counted before the move. Where that lies in the part or behind
/// its last item, the list stays. After want of memory the list is as before.
pub fn shift<T: Copy>(v: &mut Vec<T>, amount: u64, from: u64, to: u64) -> Mem<()>
    ensures ok { OnOk result (v.new.items ≡ edits.move v.old.items amount from to) }
    ensures err { OnErr result (v.new.items ≡ v.old.items) }
{
    let alloc = *v.allocator();
    if to < from {
        let turned = joined(alloc, part(v, amount, from), part(v, from - to, to), &[])?;
        *v = joined(alloc, before(v, to), &turned, after(v, from, amount))?;
    } else if to - from > amount {
        let between = part(v, to - from - amount, from + amount);
        let turned = joined(alloc, between, part(v, amount, from), &[])?;
        *v = joined(alloc, before(v, from), &turned, after(v, to, 0))?;
    }
    Ok(())
}

/// Erase: zeros for the items from an offset on, so many or up to the end. Answers their number. After want of memory the list
/// is as before.
pub fn erase<T: Copy>(zero: T, v: &mut Vec<T>, amount: u64, offset: u64) -> Mem<u64>
    ensures ok { OnOk result (v.new.items ≡ edits.erase zero v.old.items amount offset) }
    ensures count { IfOk result (λ count. count ≡ edits.erased_count v.old.items amount offset) }
    ensures err { OnErr result (v.new.items ≡ v.old.items) }
{
    let alloc = *v.allocator();
    let count = part(v, amount, offset).len() as u64;
    let zeros = repeated(alloc, zero, count)?;
    *v = joined(alloc, before(v, offset), &zeros, after(v, offset, amount))?;
    Ok(count)
}

/// Trim: the first items. It takes no memory.
pub fn trim<T: Copy>(v: &mut Vec<T>, size: u64)
    ensures { v.new.items ≡ edits.trim v.old.items size }
{
    v.truncate(size.min(v.len() as u64) as usize);
}
