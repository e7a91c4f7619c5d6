//! The calls of a session, after the DBMS_LOB reference.
use crate::blob::Blob;
use crate::list::List;
use crate::name::{LocName, Name};

/// One call of a session. Offsets count bytes from 1, amounts and lengths count bytes.
#[derive(Drop)]
pub enum Call {
    /// Makes a row with an empty value.
    Insert {
        row: Name,
    },
    /// Takes a row away.
    Delete {
        row: Name,
    },
    /// Locks a row and sets a locator to its value.
    Lock {
        to: LocName,
        row: Name,
    },
    /// Sets a locator to a row's value.
    Select {
        to: LocName,
        row: Name,
    },
    /// Sets a locator to the value that a row had after the first `commit` commits.
    SelectAsOf {
        to: LocName,
        row: Name,
        commit: u64,
    },
    /// Sets a locator to a copy of another.
    Assign {
        to: LocName,
        from: LocName,
    },
    /// Takes a locator away.
    Free {
        at: LocName,
    },
    /// GETLENGTH.
    Length {
        at: LocName,
    },
    /// READ.
    Read {
        at: LocName,
        amount: u64,
        offset: u64,
    },
    /// INSTR, the first occurrence.
    Instr {
        at: LocName,
        pattern: Blob,
        offset: u64,
    },
    /// COMPARE.
    Compare {
        left: LocName,
        right: LocName,
        amount: u64,
        left_offset: u64,
        right_offset: u64,
    },
    /// WRITE.
    Write {
        at: LocName,
        offset: u64,
        bytes: Blob,
    },
    /// WRITEAPPEND.
    WriteAppend {
        at: LocName,
        bytes: Blob,
    },
    /// APPEND.
    Append {
        at: LocName,
        from: LocName,
    },
    /// COPY.
    Copy {
        at: LocName,
        from: LocName,
        amount: u64,
        to_offset: u64,
        from_offset: u64,
    },
    /// ERASE.
    Erase {
        at: LocName,
        amount: u64,
        offset: u64,
    },
    /// TRIM.
    Trim {
        at: LocName,
        length: u64,
    },
    /// FRAGMENT_INSERT.
    FragInsert {
        at: LocName,
        offset: u64,
        bytes: Blob,
    },
    /// FRAGMENT_DELETE.
    FragDelete {
        at: LocName,
        amount: u64,
        offset: u64,
    },
    /// FRAGMENT_MOVE.
    FragMove {
        at: LocName,
        amount: u64,
        from_offset: u64,
        to_offset: u64,
    },
    /// FRAGMENT_REPLACE.
    FragReplace {
        at: LocName,
        old_amount: u64,
        offset: u64,
        bytes: Blob,
    },
    /// SETOPTIONS, which turns sharing on or off for one object.
    SetOptions {
        at: LocName,
        share: bool,
    },
    /// Sets a savepoint.
    Savepoint {
        name: LocName,
    },
    /// Undoes the work since a savepoint.
    RollbackTo {
        name: LocName,
    },
    /// Ends the transaction and keeps its work.
    Commit,
    /// Ends the transaction and drops its work.
    Rollback,
    /// Ends the session.
    End,
}

/// The calls of one session, in order, without its End.
pub type CallList = List<Call>;

/// The calls of each session, session 1 first.
pub type CallTable = List<CallList>;
