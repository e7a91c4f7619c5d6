//! A map over hashed keys, seen as its entries in the order of their keys.
ghost use Rattle.std.specs.Prelude.{◌≡◌, ◌+◌, ◌≤◌, ◌<◌, ◌^◌, [], length, map, is_some, IsTrue, ◌↔◌, IsSome, Some, IfSome, IfOk, OnOk};
ghost use Rattle.std.specs.Option.{option_copied};
ghost use Rattle.std.specs.Map.{keys_of};
ghost use Rattle.std.specs.Map.Iter.{deref_pair};
ghost use Rattle.std.specs.List.Sorted.{IsStrictlySortedBy};
ghost use Rattle.sf_types.specs.Rooms.{MakesRoom, GrowsWithin};
ghost use Rattle.sf_room_map.specs.Entries.{value_for, with_value, without_key, added_at};

use crate::change::{Change, Exchange};
use crate::key::RoomKey;
use sf_types::Mem;
use std::alloc::Global;
use std::collections::HashMap;
use std::marker::Model;
use std::mem;

/// A finite map with room for more entries. It is seen as the list of its entries, whose keys rise, and the number of
/// entries that it can still take without memory.
#[derive(Drop)]
pub struct RoomMap<K: RoomKey, V> {
    entries: HashMap<K, V>,
    alloc: Global,
}

impl<K: RoomKey, V> Model for RoomMap<K, V> {
    ghost use Rattle.std.specs.Prelude.{List};
    ghost use Rattle.std.specs.Coded.{coded_list, coded×};
    ghost use Rattle.std.specs.HashMap.{spare};
    ghost use Rattle.sf_types.specs.Rooms.{Roomy};
    ghost use Rattle.sf_room_map.specs.Inside.Sorted.{roomy_code, sorted_entries};

    ghost Value = { Roomy (List (K × V)) };

    ghost coded = { roomy_code (coded_list (coded× K.code V.code)) };

    ghost view = { λ map. record { held = sorted_entries K.cmp map.entries.entries; spare = spare map.entries } };
}

impl<K: RoomKey, V> RoomMap<K, V> {
    /// The empty map. It takes no memory.
    pub fn new(alloc: Global) -> RoomMap<K, V>
        ensures { result.held ≡ [] }
    {
        RoomMap {
            entries: HashMap::new(alloc),
            alloc,
        }
    }

    /// Makes room for so many entries more, which `insert` then takes without memory.
    pub fn make_room(&mut self, entries: u64) -> Mem<()>
        ensures { MakesRoom self.old self.new entries result }
    {
        self.entries.reserve(entries as usize)?;
        Ok(())
    }

    /// The number of entries.
    pub fn len(&self) -> usize
        ensures len { result ≡ length self.now.held }
        ensures few { result < 2 ^ 63 }
        ensures rising { IsStrictlySortedBy K.cmp (keys_of self.now.held) }
    {
        self.entries.len()
    }

    /// Whether there are no entries.
    pub fn is_empty(&self) -> bool
        ensures { IsTrue result ↔ (self.now.held ≡ []) }
    {
        self.len() == 0
    }

    /// The value at a key.
    pub fn get(&self, key: &K) -> Option<&V>
        ensures { option_copied result ≡ value_for K.cmp self.now.held key.now }
    {
        self.entries.get(key)
    }

    /// Whether there is a value at a key.
    pub fn contains_key(&self, key: &K) -> bool
        ensures { result ≡ is_some (value_for K.cmp self.now.held key.now) }
    {
        self.get(key).is_some()
    }

    /// Puts a value at a key that is there, and gives the one that it had. It takes no memory.
    pub fn replace(&mut self, key: &K, value: V) -> V
        requires { IsSome (value_for K.cmp self.old.held key.now) }
        ensures value { value_for K.cmp self.old.held key.now ≡ Some result }
        ensures held { self.new.held ≡ with_value K.cmp self.old.held key.now value }
        ensures spare { self.new.spare ≡ self.old.spare }
    {
        let Some(held) = self.entries.get_mut(key) else {
            unreachable!();
        };
        mem::replace(held, value)
    }

    /// Exchanges the value at a key that is there with another object, by one look. It takes no memory.
    pub fn exchange<E: Exchange<V>>(&mut self, key: &K, other: &mut E)
        requires { IsSome (value_for K.cmp self.old.held key.now) }
        ensures held { IfSome (value_for K.cmp self.old.held key.now) (λ value. self.new.held ≡ with_value K.cmp self.old.held key.now (E.given other.old value)) }
        ensures taken { IfSome (value_for K.cmp self.old.held key.now) (λ value. other.new ≡ E.taken other.old value) }
        ensures spare { self.new.spare ≡ self.old.spare }
    {
        let Some(value) = self.entries.get_mut(key) else {
            unreachable!();
        };
        other.exchange(value);
    }

    /// The entries, in the order of their keys. It takes time n log n.
    pub fn entries(&self) -> Mem<Vec<(&K, &V)>>
        ensures { IfOk result (λ entries. map deref_pair entries.items ≡ self.now.held) }
    {
        let mut entries: Vec<(&K, &V)> = self.entries.iter().collect(self.alloc)?;
        entries.sort_unstable_by(|entry, other| entry.0.cmp(other.0));
        Ok(entries)
    }
}

impl<K: RoomKey + Drop, V: Drop> RoomMap<K, V> {
    // Puts a value at a new key, where there is room for it.
    fn insert_new(&mut self, key: K, value: V)
        requires { 1 ≤ self.old.spare }
        ensures held { self.new.held ≡ with_value K.cmp self.old.held key value }
        ensures spare { self.old.spare ≤ self.new.spare + 1 }
    {
        let Ok(_) = self.entries.insert(key, value) else {
            unreachable!();
        };
    }

    /// Puts a value at a key, and gives the one that it had. Where the key is new there has to be room for one entry. It
    /// takes no memory.
    pub fn insert_within(&mut self, key: K, value: V) -> Option<V>
        requires { added_at K.cmp self.old.held key ≤ self.old.spare }
        ensures value { result ≡ value_for K.cmp self.old.held key }
        ensures held { self.new.held ≡ with_value K.cmp self.old.held key value }
        ensures spare { self.old.spare ≤ self.new.spare + added_at K.cmp self.old.held key }
    {
        if self.contains_key(&key) {
            Some(self.replace(&key, value))
        } else {
            self.insert_new(key, value);
            None
        }
    }

    /// Puts a value at a key, and gives the one that it had. At a key that is there it takes no memory. After want of memory
    /// nothing has changed.
    pub fn insert(&mut self, key: K, value: V) -> Mem<Option<V>>
        ensures value { IfOk result (λ old. old ≡ value_for K.cmp self.old.held key) }
        ensures held { OnOk result (self.new.held ≡ with_value K.cmp self.old.held key value) }
        ensures room { GrowsWithin self.old self.new (added_at K.cmp self.old.held key) (added_at K.cmp self.old.held key) result }
    {
        if !self.contains_key(&key) {
            self.make_room(1)?;
        }
        Ok(self.insert_within(key, value))
    }

    /// Takes the entry of a key away, and gives its value. It takes no memory.
    pub fn remove(&mut self, key: &K) -> Option<V>
        ensures value { result ≡ value_for K.cmp self.old.held key.now }
        ensures held { self.new.held ≡ without_key K.cmp self.old.held key.now }
        ensures spare { self.old.spare ≤ self.new.spare }
    {
        self.entries.remove(key)
    }
    /// Makes a change to every value. It takes no memory.
    pub fn change_values<C: Change<V>>(&mut self, change: &C)
        ensures held { self.new.held ≡ map (λ e. (e.0, C.changed change.now e.1)) self.old.held }
        ensures spare { self.old.spare ≤ self.new.spare }
    {
        self.entries.retain(|_key, value| {
            change.change(value);
            true
        });
    }
}
