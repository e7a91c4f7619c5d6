//! Entries of a history that has room for them.
ghost use Rattle.std.specs.Prelude.{◌≡◌, ◌+◌, ◌≤◌, [], ◌∷◌, ◌++◌, length, OnOk};
ghost use Rattle.sf_types.specs.Orders.Histories.{call_entries, entry_of};

use sf_types::{Call, CallList, Entry, Kind, Mem, OutOfMemory, RoomList, Token};

/// Makes room for so many entries, for one more, and for one for each session. After want of memory the same is held.
pub fn make_room(history: &mut RoomList<Entry>, entries: u64, sessions: u16) -> Mem<()>
    ensures held { history.new.held ≡ history.old.held }
    ensures kept { history.old.spare ≤ history.new.spare }
    ensures room { OnOk result (entries + 1 + sessions ≤ history.new.spare) }
{
    match entries.checked_add(1 + u64::from(sessions)) {
        Some(items) => history.make_room(items),
        None => Err(OutOfMemory),
    }
}

/// Puts an entry of a session last, within the room.
pub fn push_entry(history: &mut RoomList<Entry>, session: u16, kind: Kind, call: Call)
    requires { 1 ≤ history.old.spare }
    ensures held { history.new.held ≡ history.old.held ++ entry_of session kind call ∷ [] }
    ensures spare { history.new.spare + 1 ≡ history.old.spare }
{
    history.push_within(Entry {
        token: Token { session, kind },
        call,
    });
}

/// Puts calls of a session that ended behind the others, within the room.
pub fn push_calls(history: &mut RoomList<Entry>, session: u16, calls: CallList)
    requires { length calls ≤ history.old.spare }
    ensures held { history.new.held ≡ history.old.held ++ call_entries session calls }
    ensures spare { history.new.spare + length calls ≡ history.old.spare }
{
    for call in calls.into_vec() {
        push_entry(history, session, Kind::Call, call);
    }
}
