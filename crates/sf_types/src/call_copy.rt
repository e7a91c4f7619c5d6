//! Copies of calls: for each variant with fields, a function that gives it from copies of these.
ghost use Rattle.std.specs.Prelude.{◌≡◌, IfOk};
ghost use Rattle.sf_types.specs.declared.call.Call.TheVariants as calls;

use crate::blob::Blob;
use crate::call::Call;
use crate::copy::TryCopy;
use crate::memory::Mem;
use crate::name::{LocName, Name};

fn insert(row: &Name) -> Mem<Call>
    ensures { IfOk result (λ call. call ≡ calls.Insert row.now) }
{
    Ok(Call::Insert { row: row.copy()? })
}

fn delete(row: &Name) -> Mem<Call>
    ensures { IfOk result (λ call. call ≡ calls.Delete row.now) }
{
    Ok(Call::Delete { row: row.copy()? })
}

fn lock(to: &LocName, row: &Name) -> Mem<Call>
    ensures { IfOk result (λ call. call ≡ calls.Lock to.now row.now) }
{
    Ok(Call::Lock {
        to: to.copy()?,
        row: row.copy()?,
    })
}

fn select(to: &LocName, row: &Name) -> Mem<Call>
    ensures { IfOk result (λ call. call ≡ calls.Select to.now row.now) }
{
    Ok(Call::Select {
        to: to.copy()?,
        row: row.copy()?,
    })
}

fn select_as_of(to: &LocName, row: &Name, commit: u64) -> Mem<Call>
    ensures { IfOk result (λ call. call ≡ calls.SelectAsOf to.now row.now commit) }
{
    Ok(Call::SelectAsOf {
        to: to.copy()?,
        row: row.copy()?,
        commit,
    })
}

fn assign(to: &LocName, from: &LocName) -> Mem<Call>
    ensures { IfOk result (λ call. call ≡ calls.Assign to.now from.now) }
{
    Ok(Call::Assign {
        to: to.copy()?,
        from: from.copy()?,
    })
}

fn free(at: &LocName) -> Mem<Call>
    ensures { IfOk result (λ call. call ≡ calls.Free at.now) }
{
    Ok(Call::Free { at: at.copy()? })
}

fn length(at: &LocName) -> Mem<Call>
    ensures { IfOk result (λ call. call ≡ calls.Length at.now) }
{
    Ok(Call::Length { at: at.copy()? })
}

fn read(at: &LocName, amount: u64, offset: u64) -> Mem<Call>
    ensures { IfOk result (λ call. call ≡ calls.Read at.now amount offset) }
{
    Ok(Call::Read {
        at: at.copy()?,
        amount,
        offset,
    })
}

fn instr(at: &LocName, pattern: &Blob, offset: u64) -> Mem<Call>
    ensures { IfOk result (λ call. call ≡ calls.Instr at.now pattern.now offset) }
{
    Ok(Call::Instr {
        at: at.copy()?,
        pattern: pattern.copy()?,
        offset,
    })
}

fn compare(
    left: &LocName,
    right: &LocName,
    amount: u64,
    left_offset: u64,
    right_offset: u64,
) -> Mem<Call>
    ensures { IfOk result (λ call. call ≡ calls.Compare left.now right.now amount left_offset right_offset) }
{
    Ok(Call::Compare {
        left: left.copy()?,
        right: right.copy()?,
        amount,
        left_offset,
        right_offset,
    })
}

fn write(at: &LocName, offset: u64, bytes: &Blob) -> Mem<Call>
    ensures { IfOk result (λ call. call ≡ calls.Write at.now offset bytes.now) }
{
    Ok(Call::Write {
        at: at.copy()?,
        offset,
        bytes: bytes.copy()?,
    })
}

fn write_append(at: &LocName, bytes: &Blob) -> Mem<Call>
    ensures { IfOk result (λ call. call ≡ calls.WriteAppend at.now bytes.now) }
{
    Ok(Call::WriteAppend {
        at: at.copy()?,
        bytes: bytes.copy()?,
    })
}

fn append(at: &LocName, from: &LocName) -> Mem<Call>
    ensures { IfOk result (λ call. call ≡ calls.Append at.now from.now) }
{
    Ok(Call::Append {
        at: at.copy()?,
        from: from.copy()?,
    })
}

fn copy(at: &LocName, from: &LocName, amount: u64, to_offset: u64, from_offset: u64) -> Mem<Call>
    ensures { IfOk result (λ call. call ≡ calls.Copy at.now from.now amount to_offset from_offset) }
{
    Ok(Call::Copy {
        at: at.copy()?,
        from: from.copy()?,
        amount,
        to_offset,
        from_offset,
    })
}

fn erase(at: &LocName, amount: u64, offset: u64) -> Mem<Call>
    ensures { IfOk result (λ call. call ≡ calls.Erase at.now amount offset) }
{
    Ok(Call::Erase {
        at: at.copy()?,
        amount,
        offset,
    })
}

fn trim(at: &LocName, length: u64) -> Mem<Call>
    ensures { IfOk result (λ call. call ≡ calls.Trim at.now length) }
{
    Ok(Call::Trim {
        at: at.copy()?,
        length,
    })
}

fn frag_insert(at: &LocName, offset: u64, bytes: &Blob) -> Mem<Call>
    ensures { IfOk result (λ call. call ≡ calls.FragInsert at.now offset bytes.now) }
{
    Ok(Call::FragInsert {
        at: at.copy()?,
        offset,
        bytes: bytes.copy()?,
    })
}

fn frag_delete(at: &LocName, amount: u64, offset: u64) -> Mem<Call>
    ensures { IfOk result (λ call. call ≡ calls.FragDelete at.now amount offset) }
{
    Ok(Call::FragDelete {
        at: at.copy()?,
        amount,
        offset,
    })
}

fn frag_move(at: &LocName, amount: u64, from_offset: u64, to_offset: u64) -> Mem<Call>
    ensures { IfOk result (λ call. call ≡ calls.FragMove at.now amount from_offset to_offset) }
{
    Ok(Call::FragMove {
        at: at.copy()?,
        amount,
        from_offset,
        to_offset,
    })
}

fn frag_replace(at: &LocName, old_amount: u64, offset: u64, bytes: &Blob) -> Mem<Call>
    ensures { IfOk result (λ call. call ≡ calls.FragReplace at.now old_amount offset bytes.now) }
{
    Ok(Call::FragReplace {
        at: at.copy()?,
        old_amount,
        offset,
        bytes: bytes.copy()?,
    })
}

fn set_options(at: &LocName, share: bool) -> Mem<Call>
    ensures { IfOk result (λ call. call ≡ calls.SetOptions at.now share) }
{
    Ok(Call::SetOptions {
        at: at.copy()?,
        share,
    })
}

fn savepoint(name: &LocName) -> Mem<Call>
    ensures { IfOk result (λ call. call ≡ calls.Savepoint name.now) }
{
    Ok(Call::Savepoint { name: name.copy()? })
}

fn rollback_to(name: &LocName) -> Mem<Call>
    ensures { IfOk result (λ call. call ≡ calls.RollbackTo name.now) }
{
    Ok(Call::RollbackTo { name: name.copy()? })
}

impl TryCopy for Call {
    fn copy(&self) -> Mem<Call> {
        match self {
            Call::Insert { row } => insert(row),
            Call::Delete { row } => delete(row),
            Call::Lock { to, row } => lock(to, row),
            Call::Select { to, row } => select(to, row),
            Call::SelectAsOf { to, row, commit } => select_as_of(to, row, *commit),
            Call::Assign { to, from } => assign(to, from),
            Call::Free { at } => free(at),
            Call::Length { at } => length(at),
            Call::Read { at, amount, offset } => read(at, *amount, *offset),
            Call::Instr {
                at,
                pattern,
                offset,
            } => instr(at, pattern, *offset),
            Call::Compare {
                left,
                right,
                amount,
                left_offset,
                right_offset,
            } => compare(left, right, *amount, *left_offset, *right_offset),
            Call::Write { at, offset, bytes } => write(at, *offset, bytes),
            Call::WriteAppend { at, bytes } => write_append(at, bytes),
            Call::Append { at, from } => append(at, from),
            Call::Copy {
                at,
                from,
                amount,
                to_offset,
                from_offset,
            } => copy(at, from, *amount, *to_offset, *from_offset),
            Call::Erase { at, amount, offset } => erase(at, *amount, *offset),
            Call::Trim { at, length } => trim(at, *length),
            Call::FragInsert { at, offset, bytes } => frag_insert(at, *offset, bytes),
            Call::FragDelete { at, amount, offset } => frag_delete(at, *amount, *offset),
            Call::FragMove {
                at,
                amount,
                from_offset,
                to_offset,
            } => frag_move(at, *amount, *from_offset, *to_offset),
            Call::FragReplace {
                at,
                old_amount,
                offset,
                bytes,
            } => frag_replace(at, *old_amount, *offset, bytes),
            Call::SetOptions { at, share } => set_options(at, *share),
            Call::Savepoint { name } => savepoint(name),
            Call::RollbackTo { name } => rollback_to(name),
            Call::Commit => Ok(Call::Commit),
            Call::Rollback => Ok(Call::Rollback),
            Call::End => Ok(Call::End),
        }
    }
}
