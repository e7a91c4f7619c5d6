//! Lists that make room ahead of what they are to hold.
ghost use Rattle.std.specs.Prelude.{◌≡◌, ◌+◌, ◌≤◌, [], ◌∷◌, ◌++◌, length, slice_get, IfOk, OnOk};
ghost use Rattle.std.specs.Option.{option_copied};
ghost use Rattle.sf_types.specs.Rooms.{MakesRoom, GrowsWithin};

use crate::copy::TryCopy;
use crate::list::List;
use crate::memory::Mem;
use std::alloc::Global;
use std::marker::Model;

/// A `Vec` that contracts see as the list of its items, and the number of items that it can still take without memory.
#[derive(Debug, Drop)]
pub struct RoomList<T> {
    items: Vec<T>,
}

impl<T> Model for RoomList<T> {
    ghost use Rattle.std.specs.Prelude.{◌-◌, List, vec_capacity, vec_len};
    ghost use Rattle.sf_types.specs.Rooms.{Roomy};

    ghost Value = { Roomy (List T) };

    ghost view = { λ list. record { held = list.items.items; spare = vec_capacity list.items - vec_len list.items } };
}

impl<T> RoomList<T> {
    /// The empty list, without room. It takes no memory.
    pub fn new(alloc: Global) -> RoomList<T>
        ensures items { result.held ≡ [] }
        ensures spare { result.spare ≡ 0 }
    {
        RoomList {
            items: Vec::new(alloc),
        }
    }

    /// Makes room for so many items more, which `push` then takes without memory.
    pub fn make_room(&mut self, items: u64) -> Mem<()>
        ensures { MakesRoom self.old self.new items result }
    {
        self.items.reserve(items as usize)?;
        Ok(())
    }

    /// The items.
    pub fn as_slice(&self) -> &[T]
        ensures { result.now ≡ self.now.held }
    {
        self.items.as_slice()
    }

    /// The number of items.
    pub fn len(&self) -> usize
        ensures { result ≡ length self.now.held }
    {
        self.items.len()
    }

    /// The item at a place, counted from 0. None exactly where the place isn't below `len()`.
    pub fn get(&self, at: usize) -> Option<&T>
        ensures { option_copied result ≡ slice_get self.now.held at }
    {
        self.items.get(at)
    }
}

impl<T: Drop> RoomList<T> {
    /// Puts an item last. After want of memory nothing has changed.
    pub fn push(&mut self, item: T) -> Mem<()>
        ensures ok { OnOk result (self.new.held ≡ self.old.held ++ item ∷ []) }
        ensures room { GrowsWithin self.old self.new 1 1 result }
    {
        self.items.push(item)?;
        Ok(())
    }

    /// Puts an item last, where there is room for it. It takes no memory.
    pub fn push_within(&mut self, item: T)
        requires { 1 ≤ self.old.spare }
        ensures items { self.new.held ≡ self.old.held ++ item ∷ [] }
        ensures spare { self.new.spare + 1 ≡ self.old.spare }
    {
        self.items.push_reserved(item);
    }
}

impl<T: TryCopy + Drop> RoomList<T> {
    /// A list of equal items, without room for more.
    pub fn copy(&self) -> Mem<RoomList<T>>
        ensures items { IfOk result (λ copied. copied.held ≡ self.now.held) }
        ensures spare { IfOk result (λ copied. copied.spare ≡ 0) }
    {
        let mut items = Vec::with_capacity(*self.items.allocator(), self.items.len())?;
        for item in &self.items {
            items.push_reserved(item.copy()?);
        }
        Ok(RoomList { items })
    }
}
