//! Whether two calls are the same.
ghost use Rattle.std.specs.Prelude.{◌≡◌};
ghost use Rattle.std.specs.Bool.{Decides};
ghost use Rattle.sf_types.specs.declared.call.Call.TheVariants as calls;

use sf_types::{Blob, Call, LocName, Name};

// Whether two lists of bytes are the same.
fn same_bytes(bytes: &[u8], other: &[u8]) -> bool
    ensures { Decides result (bytes.now ≡ other.now) }
{
    bytes == other
}

// Whether a call is this Insert.
fn is_insert(row: &Name, other: &Call) -> bool
    ensures { Decides result (calls.Insert row.now ≡ other.now) }
{
    match other {
        Call::Insert { row: other_row } => { same_bytes(row.as_bytes(), other_row.as_bytes()) }
        _ => false,
    }
}

// Whether a call is this Delete.
fn is_delete(row: &Name, other: &Call) -> bool
    ensures { Decides result (calls.Delete row.now ≡ other.now) }
{
    match other {
        Call::Delete { row: other_row } => { same_bytes(row.as_bytes(), other_row.as_bytes()) }
        _ => false,
    }
}

// Whether a call is this Lock.
fn is_lock(to: &LocName, row: &Name, other: &Call) -> bool
    ensures { Decides result (calls.Lock to.now row.now ≡ other.now) }
{
    match other {
        Call::Lock {
            to: other_to,
            row: other_row,
        } => {
            same_bytes(to.as_bytes(), other_to.as_bytes())
                && same_bytes(row.as_bytes(), other_row.as_bytes())
        }
        _ => false,
    }
}

// Whether a call is this Select.
fn is_select(to: &LocName, row: &Name, other: &Call) -> bool
    ensures { Decides result (calls.Select to.now row.now ≡ other.now) }
{
    match other {
        Call::Select {
            to: other_to,
            row: other_row,
        } => {
            same_bytes(to.as_bytes(), other_to.as_bytes())
                && same_bytes(row.as_bytes(), other_row.as_bytes())
        }
        _ => false,
    }
}

// Whether a call is this SelectAsOf.
fn is_select_as_of(to: &LocName, row: &Name, commit: u64, other: &Call) -> bool
    ensures { Decides result (calls.SelectAsOf to.now row.now commit ≡ other.now) }
{
    match other {
        Call::SelectAsOf {
            to: other_to,
            row: other_row,
            commit: other_commit,
        } => {
            same_bytes(to.as_bytes(), other_to.as_bytes())
                && same_bytes(row.as_bytes(), other_row.as_bytes())
                && commit == *other_commit
        }
        _ => false,
    }
}

// Whether a call is this Assign.
fn is_assign(to: &LocName, from: &LocName, other: &Call) -> bool
    ensures { Decides result (calls.Assign to.now from.now ≡ other.now) }
{
    match other {
        Call::Assign {
            to: other_to,
            from: other_from,
        } => {
            same_bytes(to.as_bytes(), other_to.as_bytes())
                && same_bytes(from.as_bytes(), other_from.as_bytes())
        }
        _ => false,
    }
}

// Whether a call is this Free.
fn is_free(at: &LocName, other: &Call) -> bool
    ensures { Decides result (calls.Free at.now ≡ other.now) }
{
    match other {
        Call::Free { at: other_at } => { same_bytes(at.as_bytes(), other_at.as_bytes()) }
        _ => false,
    }
}

// Whether a call is this Length.
fn is_length(at: &LocName, other: &Call) -> bool
    ensures { Decides result (calls.Length at.now ≡ other.now) }
{
    match other {
        Call::Length { at: other_at } => { same_bytes(at.as_bytes(), other_at.as_bytes()) }
        _ => false,
    }
}

// Whether a call is this Read.
fn is_read(at: &LocName, amount: u64, offset: u64, other: &Call) -> bool
    ensures { Decides result (calls.Read at.now amount offset ≡ other.now) }
{
    match other {
        Call::Read {
            at: other_at,
            amount: other_amount,
            offset: other_offset,
        } => {
            same_bytes(at.as_bytes(), other_at.as_bytes())
                && amount == *other_amount
                && offset == *other_offset
        }
        _ => false,
    }
}

// Whether a call is this Instr.
fn is_instr(at: &LocName, pattern: &Blob, offset: u64, other: &Call) -> bool
    ensures { Decides result (calls.Instr at.now pattern.now offset ≡ other.now) }
{
    match other {
        Call::Instr {
            at: other_at,
            pattern: other_pattern,
            offset: other_offset,
        } => {
            same_bytes(at.as_bytes(), other_at.as_bytes())
                && same_bytes(pattern.as_bytes(), other_pattern.as_bytes())
                && offset == *other_offset
        }
        _ => false,
    }
}

// Whether a call is this Compare.
fn is_compare(
    left: &LocName,
    right: &LocName,
    amount: u64,
    left_offset: u64,
    right_offset: u64,
    other: &Call,
) -> bool
    ensures { Decides result (calls.Compare left.now right.now amount left_offset right_offset ≡ other.now) }
{
    match other {
        Call::Compare {
            left: other_left,
            right: other_right,
            amount: other_amount,
            left_offset: other_left_offset,
            right_offset: other_right_offset,
        } => {
            same_bytes(left.as_bytes(), other_left.as_bytes())
                && same_bytes(right.as_bytes(), other_right.as_bytes())
                && amount == *other_amount
                && left_offset == *other_left_offset
                && right_offset == *other_right_offset
        }
        _ => false,
    }
}

// Whether a call is this Write.
fn is_write(at: &LocName, offset: u64, bytes: &Blob, other: &Call) -> bool
    ensures { Decides result (calls.Write at.now offset bytes.now ≡ other.now) }
{
    match other {
        Call::Write {
            at: other_at,
            offset: other_offset,
            bytes: other_bytes,
        } => {
            same_bytes(at.as_bytes(), other_at.as_bytes())
                && offset == *other_offset
                && same_bytes(bytes.as_bytes(), other_bytes.as_bytes())
        }
        _ => false,
    }
}

// Whether a call is this WriteAppend.
fn is_write_append(at: &LocName, bytes: &Blob, other: &Call) -> bool
    ensures { Decides result (calls.WriteAppend at.now bytes.now ≡ other.now) }
{
    match other {
        Call::WriteAppend {
            at: other_at,
            bytes: other_bytes,
        } => {
            same_bytes(at.as_bytes(), other_at.as_bytes())
                && same_bytes(bytes.as_bytes(), other_bytes.as_bytes())
        }
        _ => false,
    }
}

// Whether a call is this Append.
fn is_append(at: &LocName, from: &LocName, other: &Call) -> bool
    ensures { Decides result (calls.Append at.now from.now ≡ other.now) }
{
    match other {
        Call::Append {
            at: other_at,
            from: other_from,
        } => {
            same_bytes(at.as_bytes(), other_at.as_bytes())
                && same_bytes(from.as_bytes(), other_from.as_bytes())
        }
        _ => false,
    }
}

// Whether a call is this Copy.
fn is_copy(
    at: &LocName,
    from: &LocName,
    amount: u64,
    to_offset: u64,
    from_offset: u64,
    other: &Call,
) -> bool
    ensures { Decides result (calls.Copy at.now from.now amount to_offset from_offset ≡ other.now) }
{
    match other {
        Call::Copy {
            at: other_at,
            from: other_from,
            amount: other_amount,
            to_offset: other_to_offset,
            from_offset: other_from_offset,
        } => {
            same_bytes(at.as_bytes(), other_at.as_bytes())
                && same_bytes(from.as_bytes(), other_from.as_bytes())
                && amount == *other_amount
                && to_offset == *other_to_offset
                && from_offset == *other_from_offset
        }
        _ => false,
    }
}

// Whether a call is this Erase.
fn is_erase(at: &LocName, amount: u64, offset: u64, other: &Call) -> bool
    ensures { Decides result (calls.Erase at.now amount offset ≡ other.now) }
{
    match other {
        Call::Erase {
            at: other_at,
            amount: other_amount,
            offset: other_offset,
        } => {
            same_bytes(at.as_bytes(), other_at.as_bytes())
                && amount == *other_amount
                && offset == *other_offset
        }
        _ => false,
    }
}

// Whether a call is this Trim.
fn is_trim(at: &LocName, length: u64, other: &Call) -> bool
    ensures { Decides result (calls.Trim at.now length ≡ other.now) }
{
    match other {
        Call::Trim {
            at: other_at,
            length: other_length,
        } => { same_bytes(at.as_bytes(), other_at.as_bytes()) && length == *other_length }
        _ => false,
    }
}

// Whether a call is this FragInsert.
fn is_frag_insert(at: &LocName, offset: u64, bytes: &Blob, other: &Call) -> bool
    ensures { Decides result (calls.FragInsert at.now offset bytes.now ≡ other.now) }
{
    match other {
        Call::FragInsert {
            at: other_at,
            offset: other_offset,
            bytes: other_bytes,
        } => {
            same_bytes(at.as_bytes(), other_at.as_bytes())
                && offset == *other_offset
                && same_bytes(bytes.as_bytes(), other_bytes.as_bytes())
        }
        _ => false,
    }
}

// Whether a call is this FragDelete.
fn is_frag_delete(at: &LocName, amount: u64, offset: u64, other: &Call) -> bool
    ensures { Decides result (calls.FragDelete at.now amount offset ≡ other.now) }
{
    match other {
        Call::FragDelete {
            at: other_at,
            amount: other_amount,
            offset: other_offset,
        } => {
            same_bytes(at.as_bytes(), other_at.as_bytes())
                && amount == *other_amount
                && offset == *other_offset
        }
        _ => false,
    }
}

// Whether a call is this FragMove.
fn is_frag_move(at: &LocName, amount: u64, from_offset: u64, to_offset: u64, other: &Call) -> bool
    ensures { Decides result (calls.FragMove at.now amount from_offset to_offset ≡ other.now) }
{
    match other {
        Call::FragMove {
            at: other_at,
            amount: other_amount,
            from_offset: other_from_offset,
            to_offset: other_to_offset,
        } => {
            same_bytes(at.as_bytes(), other_at.as_bytes())
                && amount == *other_amount
                && from_offset == *other_from_offset
                && to_offset == *other_to_offset
        }
        _ => false,
    }
}

// Whether a call is this FragReplace.
fn is_frag_replace(at: &LocName, old_amount: u64, offset: u64, bytes: &Blob, other: &Call) -> bool
    ensures { Decides result (calls.FragReplace at.now old_amount offset bytes.now ≡ other.now) }
{
    match other {
        Call::FragReplace {
            at: other_at,
            old_amount: other_old_amount,
            offset: other_offset,
            bytes: other_bytes,
        } => {
            same_bytes(at.as_bytes(), other_at.as_bytes())
                && old_amount == *other_old_amount
                && offset == *other_offset
                && same_bytes(bytes.as_bytes(), other_bytes.as_bytes())
        }
        _ => false,
    }
}

// Whether a call is this SetOptions.
fn is_set_options(at: &LocName, share: bool, other: &Call) -> bool
    ensures { Decides result (calls.SetOptions at.now share ≡ other.now) }
{
    match other {
        Call::SetOptions {
            at: other_at,
            share: other_share,
        } => { same_bytes(at.as_bytes(), other_at.as_bytes()) && share == *other_share }
        _ => false,
    }
}

// Whether a call is this Savepoint.
fn is_savepoint(name: &LocName, other: &Call) -> bool
    ensures { Decides result (calls.Savepoint name.now ≡ other.now) }
{
    match other {
        Call::Savepoint { name: other_name } => {
            same_bytes(name.as_bytes(), other_name.as_bytes())
        }
        _ => false,
    }
}

// Whether a call is this RollbackTo.
fn is_rollback_to(name: &LocName, other: &Call) -> bool
    ensures { Decides result (calls.RollbackTo name.now ≡ other.now) }
{
    match other {
        Call::RollbackTo { name: other_name } => {
            same_bytes(name.as_bytes(), other_name.as_bytes())
        }
        _ => false,
    }
}

/// Whether two calls are the same.
pub fn same_call(call: &Call, other: &Call) -> bool
    ensures { Decides result (call.now ≡ other.now) }
{
    match call {
        Call::Insert { row } => is_insert(row, other),
        Call::Delete { row } => is_delete(row, other),
        Call::Lock { to, row } => is_lock(to, row, other),
        Call::Select { to, row } => is_select(to, row, other),
        Call::SelectAsOf { to, row, commit } => is_select_as_of(to, row, *commit, other),
        Call::Assign { to, from } => is_assign(to, from, other),
        Call::Free { at } => is_free(at, other),
        Call::Length { at } => is_length(at, other),
        Call::Read { at, amount, offset } => is_read(at, *amount, *offset, other),
        Call::Instr {
            at,
            pattern,
            offset,
        } => is_instr(at, pattern, *offset, other),
        Call::Compare {
            left,
            right,
            amount,
            left_offset,
            right_offset,
        } => is_compare(left, right, *amount, *left_offset, *right_offset, other),
        Call::Write { at, offset, bytes } => is_write(at, *offset, bytes, other),
        Call::WriteAppend { at, bytes } => is_write_append(at, bytes, other),
        Call::Append { at, from } => is_append(at, from, other),
        Call::Copy {
            at,
            from,
            amount,
            to_offset,
            from_offset,
        } => is_copy(at, from, *amount, *to_offset, *from_offset, other),
        Call::Erase { at, amount, offset } => is_erase(at, *amount, *offset, other),
        Call::Trim { at, length } => is_trim(at, *length, other),
        Call::FragInsert { at, offset, bytes } => is_frag_insert(at, *offset, bytes, other),
        Call::FragDelete { at, amount, offset } => is_frag_delete(at, *amount, *offset, other),
        Call::FragMove {
            at,
            amount,
            from_offset,
            to_offset,
        } => is_frag_move(at, *amount, *from_offset, *to_offset, other),
        Call::FragReplace {
            at,
            old_amount,
            offset,
            bytes,
        } => is_frag_replace(at, *old_amount, *offset, bytes, other),
        Call::SetOptions { at, share } => is_set_options(at, *share, other),
        Call::Savepoint { name } => is_savepoint(name, other),
        Call::RollbackTo { name } => is_rollback_to(name, other),
        Call::Commit => matches!(other, Call::Commit),
        Call::Rollback => matches!(other, Call::Rollback),
        Call::End => matches!(other, Call::End),
    }
}
