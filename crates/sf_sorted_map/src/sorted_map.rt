//! A map as a sorted vector of its entries.
ghost use Rattle.std.specs.Prelude.{◌≡◌, ◌+◌, ◌≤◌, [], length, map, filter, slice_get, IsSome, Some, IfOk, IfErr, OnOk};
ghost use Rattle.std.specs.Option.{option_copied, option_map};
ghost use Rattle.std.specs.Map.{keys_of};
ghost use Rattle.std.specs.Map.Iter.{deref_pair};
ghost use Rattle.std.specs.List.Sorted.{IsStrictlySortedBy, IsSearchInRange};
ghost use Rattle.sf_types.specs.Rooms.{MakesRoom, GrowsWithin};
ghost use Rattle.sf_room_map.specs.Entries.{value_for, with_value, without_key, added_at};
ghost use Rattle.sf_sorted_map.specs.UpTo.{entry_up_to};
ghost use Rattle.sf_sorted_map.specs.Inside.Places.{IsFound, IsGap};

use sf_room_map::{Change, Exchange, KeyTest, RoomKey};
use sf_types::Mem;
use std::alloc::Global;
use std::marker::Model;
use std::mem;

/// A finite map with room for more entries. It is seen as the list of its entries, whose keys rise, and the number of
/// entries that it can still take without memory. A look takes time in proportion to the logarithm of their number, and
/// an entry that comes or goes moves those behind it.
#[derive(Drop)]
pub struct SortedMap<K: RoomKey, V> {
    entries: Vec<(K, V)>,
}

impl<K: RoomKey, V> Model for SortedMap<K, V> {
    ghost use Rattle.std.specs.Prelude.{◌-◌, List, vec_capacity, vec_len};
    ghost use Rattle.std.specs.Coded.{coded_list, coded×};
    ghost use Rattle.std.specs.Map.{keys_of};
    ghost use Rattle.std.specs.List.Sorted.{IsStrictlySortedBy};
    ghost use Rattle.sf_types.specs.Rooms.{Roomy};
    ghost use Rattle.sf_room_map.specs.Inside.Sorted.{roomy_code};

    ghost Value = { Roomy (List (K × V)) };

    ghost coded = { roomy_code (coded_list (coded× K.code V.code)) };

    ghost view = { λ map. record { held = map.entries.items; spare = vec_capacity map.entries - vec_len map.entries } };

    ghost invariant = { λ map. IsStrictlySortedBy K.cmp (keys_of map.entries.items) };
}

// Makes a change to the value of every entry.
fn change_entries<K, V, C: Change<V>>(entries: &mut [(K, V)], change: &C)
    ensures keys { keys_of entries.new ≡ keys_of entries.old }
    ensures values { entries.new ≡ map (λ e. (e.0, C.changed change.now e.1)) entries.old }
{
    for at in 0..entries.len() {
        change.change(&mut entries[at].1);
    }
}

// Where a key is among entries whose keys rise, or where it would go.
fn search<K: RoomKey, V>(entries: &[(K, V)], key: &K) -> Result<usize, usize>
    requires { IsStrictlySortedBy K.cmp (keys_of entries.now) }
    ensures bound { IsSearchInRange result (length entries.now) }
    ensures found { IfOk result (IsFound K.cmp entries.now key.now) }
    ensures gap { IfErr result (IsGap K.cmp entries.now key.now) }
{
    entries.binary_search_by(|entry| entry.0.cmp(key))
}

impl<K: RoomKey, V> SortedMap<K, V> {
    /// The empty map. It takes no memory.
    pub fn new(alloc: Global) -> SortedMap<K, V>
        ensures { result.held ≡ [] }
    {
        SortedMap {
            entries: Vec::new(alloc),
        }
    }

    /// The map of these entries, whose keys have to rise. It takes no memory.
    pub fn from_entries(entries: Vec<(K, V)>) -> SortedMap<K, V>
        requires { IsStrictlySortedBy K.cmp (keys_of entries.items) }
        ensures { result.held ≡ entries.items }
    {
        SortedMap { entries }
    }

    /// Makes room for so many entries more, which `insert` then takes without memory.
    pub fn make_room(&mut self, entries: u64) -> Mem<()>
        ensures { MakesRoom self.old self.new entries result }
    {
        self.entries.reserve(entries as usize)?;
        Ok(())
    }

    /// The number of entries.
    pub fn len(&self) -> usize
        ensures len { result ≡ length self.now.held }
        ensures rising { IsStrictlySortedBy K.cmp (keys_of self.now.held) }
    {
        self.entries.len()
    }

    /// The value at a key.
    pub fn get(&self, key: &K) -> Option<&V>
        ensures { option_copied result ≡ value_for K.cmp self.now.held key.now }
    {
        match search(&self.entries, key) {
            Ok(at) => Some(&self.entries[at].1),
            Err(_) => None,
        }
    }

    /// The k-th entry in the order of keys, counted from 0. None exactly where there are at most k.
    pub fn entry(&self, k: usize) -> Option<(&K, &V)>
        ensures { option_map deref_pair result ≡ slice_get self.now.held k }
    {
        match self.entries.get(k) {
            Some(entry) => Some((&entry.0, &entry.1)),
            None => None,
        }
    }

    /// The last entry whose key is at most a key. None exactly where all keys are greater.
    pub fn at_most(&self, key: &K) -> Option<(&K, &V)>
        ensures { option_map deref_pair result ≡ entry_up_to K.cmp self.now.held key.now }
    {
        match search(&self.entries, key) {
            Ok(at) => self.entry(at),
            Err(0) => None,
            Err(at) => self.entry(at - 1),
        }
    }

    /// Puts a value at a key that is there, and gives the one that it had. It takes no memory.
    pub fn replace(&mut self, key: &K, value: V) -> V
        requires { IsSome (value_for K.cmp self.old.held key.now) }
        ensures value { value_for K.cmp self.old.held key.now ≡ Some result }
        ensures held { self.new.held ≡ with_value K.cmp self.old.held key.now value }
        ensures spare { self.new.spare ≡ self.old.spare }
    {
        let Ok(at) = search(&self.entries, key) else {
            unreachable!();
        };
        mem::replace(&mut self.entries[at].1, value)
    }

    /// Makes an exchange with the value at a key that is there. It takes no memory.
    pub fn exchange<E: Exchange<V>>(&mut self, key: &K, other: &mut E)
        requires { IsSome (value_for K.cmp self.old.held key.now) }
        ensures held { (value : V) → value_for K.cmp self.old.held key.now ≡ Some value → self.new.held ≡ with_value K.cmp self.old.held key.now (E.given other.old value) }
        ensures other { (value : V) → value_for K.cmp self.old.held key.now ≡ Some value → other.new ≡ E.taken other.old value }
        ensures spare { self.new.spare ≡ self.old.spare }
    {
        let Ok(at) = search(&self.entries, key) else {
            unreachable!();
        };
        other.exchange(&mut self.entries[at].1);
    }

    /// Makes a change to every value. It takes no memory.
    pub fn change_values<C: Change<V>>(&mut self, change: &C)
        ensures held { self.new.held ≡ map (λ e. (e.0, C.changed change.now e.1)) self.old.held }
        ensures spare { self.new.spare ≡ self.old.spare }
    {
        change_entries(&mut self.entries, change);
    }
}

impl<K: RoomKey + Drop, V: Drop> SortedMap<K, V> {
    // Puts a value at a key that isn't there, where it would go.
    fn insert_at(&mut self, at: usize, key: K, value: V) -> Mem<()>
        requires { IsGap K.cmp self.old.held key at }
        ensures held { OnOk result (self.new.held ≡ with_value K.cmp self.old.held key value) }
        ensures room { GrowsWithin self.old self.new 1 1 result }
    {
        self.entries.insert(at, (key, value))?;
        Ok(())
    }

    /// Puts a value at a key. At a key that is there it takes no memory. After want of memory nothing has changed.
    pub fn insert(&mut self, key: K, value: V) -> Mem<()>
        ensures held { OnOk result (self.new.held ≡ with_value K.cmp self.old.held key value) }
        ensures room { GrowsWithin self.old self.new (added_at K.cmp self.old.held key) (added_at K.cmp self.old.held key) result }
    {
        match search(&self.entries, &key) {
            Ok(at) => {
                self.entries[at].1 = value;
                Ok(())
            }
            Err(at) => self.insert_at(at, key, value),
        }
    }

    /// Puts a value at a key, where there is room for what it adds. It takes no memory.
    pub fn insert_within(&mut self, key: K, value: V)
        requires { added_at K.cmp self.old.held key ≤ self.old.spare }
        ensures held { self.new.held ≡ with_value K.cmp self.old.held key value }
        ensures spare { self.old.spare ≤ self.new.spare + added_at K.cmp self.old.held key }
    {
        let Ok(()) = self.insert(key, value) else {
            unreachable!();
        };
    }

    /// Takes the entry of a key away, and gives its value. It takes no memory.
    pub fn remove(&mut self, key: &K) -> Option<V>
        ensures value { result ≡ value_for K.cmp self.old.held key.now }
        ensures held { self.new.held ≡ without_key K.cmp self.old.held key.now }
        ensures spare { self.old.spare ≤ self.new.spare }
    {
        match search(&self.entries, key) {
            Ok(at) => Some(self.entries.remove(at).1),
            Err(_) => None,
        }
    }

    /// Keeps the entries whose keys pass a test. It takes no memory.
    pub fn retain<T: KeyTest<K>>(&mut self, test: &T)
        ensures held { self.new.held ≡ filter (λ e. T.passes test.now e.0) self.old.held }
        ensures spare { self.old.spare ≤ self.new.spare }
    {
        self.entries.retain(|entry| test.passes(&entry.0));
    }
}
