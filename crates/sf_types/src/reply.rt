//! The replies to calls.
ghost use Rattle.std.specs.Prelude.{◌≡◌};

use crate::blob::Blob;
use crate::copy::TryCopy;
use crate::list::List;
use crate::memory::Mem;

/// Why a call was refused. The order of refusals is this project's own.
#[derive(Clone, Copy, Debug, PartialEq, Eq)]
pub enum Fault {
    /// The session has no locator of that name.
    UnknownLocator,
    /// The session has 256 locators, and the name is new.
    TooManyLocators,
    /// The locator's value came from work that was rolled back.
    Lost,
    /// The locator was selected as of an old commit.
    ReadOnly,
    /// The locator belongs to another transaction.
    SpansTransactions,
    /// The session doesn't hold the row's lock.
    RowNotLocked,
    /// The row is absent.
    NoSuchRow,
    /// The row is present.
    Duplicate,
    /// Another session holds the row's lock.
    Busy,
    /// An amount, an offset or a buffer is out of its range.
    ArgOutOfRange,
    /// The offset is past the end.
    NoData,
    /// The length is past the end.
    TrimPastEnd,
    /// The source's offset is past its end.
    SourcePastEnd,
    /// The object would have more than 67,108,864 bytes.
    TooLong,
    /// The commit is below the floor.
    TooOld,
    /// The commit hasn't been made yet.
    FutureCommit,
    /// The session has 64 savepoints, and the name is new.
    TooManySavepoints,
    /// The session has no savepoint of that name.
    NoSavepoint,
    /// The store hasn't the room.
    NoSpace {
        /// The blocks that were wanted.
        wanted: u64,
        /// The blocks that were free.
        free: u64,
    },
}

/// The reply to a call.
#[derive(Clone, Debug, Drop)]
pub enum Reply {
    /// The call was done.
    Done,
    /// A length, a position or a number of bytes.
    Number(u64),
    /// The bytes that were read.
    Bytes(Blob),
    /// Whether two parts are equal.
    Equal(bool),
    /// The number of commits.
    Committed(u64),
    /// The session has ended.
    Ended,
    /// The call was refused, and changed nothing.
    Refused(Fault),
}

impl TryCopy for Reply {
    fn copy(&self) -> Mem<Reply> {
        Ok(self.clone()?)
    }
}

/// The replies to one session's calls, in order.
pub type ReplyList = List<Reply>;

/// The replies to each session's calls, session 1 first.
pub type ReplyTable = List<ReplyList>;
