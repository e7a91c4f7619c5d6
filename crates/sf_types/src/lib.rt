//! The plain types of the store, and its rules as definitions (`specs/`).
#![tactic(auto)]

mod birth_runs;
mod births;
mod blob;
mod call;
mod call_copy;
mod closed;
mod copy;
mod history;
mod holder;
mod limits;
mod list;
mod memory;
mod name;
mod name_map;
mod options;
mod place;
mod played;
mod reply;
mod room_list;
mod row_end;
mod run;
mod sum;
mod text;

pub use birth_runs::{BirthRuns, BirthRunsList};
pub use births::Births;
pub use blob::{Blob, BlobList};
pub use call::{Call, CallList, CallTable};
pub use closed::Closed;
pub use copy::{Exact, TryCopy};
pub use history::{Entry, History, Kind, Order, Token};
pub use holder::{Holder, HolderList};
pub use limits::{
    BLOCK_BYTES, BUFFER_BYTES, CONTENT_BYTES, LEAST_GATHER_BYTES, LOCATOR_NAME_BYTES,
    MOST_GATHER_BYTES, OBJECT_BYTES, RECLAIMED_BLOCKS, RETAINED_COMMITS, ROW_NAME_BYTES,
    SESSION_LOCATORS, SESSION_SAVEPOINTS, STORE_BLOCKS, STORE_DISPENSERS, STORE_SESSIONS,
};
pub use list::List;
pub use memory::{Mem, OutOfMemory};
pub use name::{LocName, Name};
pub use name_map::NameMap;
pub use options::{Choice, Options};
pub use place::{Place, PlaceList};
pub use played::Played;
pub use reply::{Fault, Reply, ReplyList, ReplyTable};
pub use room_list::RoomList;
pub use row_end::{RowEnd, RowList};
pub use run::{ContentRuns, Run, Runs};
pub use sum::{Sum, sum_of};
pub use text::{push_decimal, push_hex, push_reply, reply_text};
