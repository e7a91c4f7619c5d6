//! Finite maps from names.
ghost use Rattle.std.specs.Prelude.{◌≡◌, [], length, IsTrue, IfOk, OnOk, OnErr, None, IsSome};
ghost use Rattle.std.specs.Option.{option_copied};
ghost use Rattle.std.specs.Ordering.{is_eq};
ghost use Rattle.std.specs.List.Sorted.{IsStrictlySortedBy};
ghost use Rattle.std.specs.Map.{lookup, keys_of, remove_entry};
ghost use Rattle.std.specs.Map.Calls.{CallableOnEachPair, CalledAtPair, TakesPair, RetainsPairs};
ghost use Rattle.std.specs.BTreeMap.{insert_entry};

use crate::copy::{Exact, TryCopy};
use crate::memory::Mem;
use std::alloc::Global;
use std::collections::BTreeMap;
use std::marker::Model;

/// A finite map, seen as the list of its entries, whose keys rise.
#[derive(Drop)]
pub struct NameMap<K: Ord, V> {
    entries: BTreeMap<K, V>,
}

impl<K: Ord, V> Model for NameMap<K, V> {
    ghost use Rattle.std.specs.Prelude.{List};
    ghost use Rattle.std.specs.Coded.{coded_list, coded×};

    ghost Value = { List (K × V) };

    ghost coded = { coded_list (coded× K.code V.code) };

    ghost view = { λ map. map.entries.entries };
}

impl<K: Ord, V> NameMap<K, V> {
    /// The empty map. It takes no memory.
    pub fn new(alloc: Global) -> NameMap<K, V>
        ensures { result ≡ [] }
    {
        NameMap {
            entries: BTreeMap::new(alloc),
        }
    }

    /// The number of entries.
    pub fn len(&self) -> usize
        ensures { result ≡ length self.now }
    {
        self.entries.len()
    }

    /// The value at a key.
    pub fn get(&self, key: &K) -> Option<&V>
        ensures { option_copied result ≡ lookup (λ other. is_eq (K.cmp key.now other)) self.now }
    {
        self.entries.get(key)
    }

    /// The map as std's, for a loop over its entries.
    pub fn as_map(&self) -> &BTreeMap<K, V>
        ensures entries { result.now.entries ≡ self.now }
        ensures ordered { IsStrictlySortedBy K.cmp (keys_of self.now) }
    {
        let _len = self.entries.len();
        &self.entries
    }
}

impl<K: Ord + Drop, V: Drop> NameMap<K, V> {
    /// Puts a value at a key. Where the key is there already, it wants no memory.
    pub fn insert(&mut self, key: K, value: V) -> Mem<()>
        ensures ok { OnOk result (self.new ≡ insert_entry K.cmp self.old key value) }
        ensures err { OnErr result (self.new ≡ self.old) }
        ensures absent { OnErr result (lookup (λ other. is_eq (K.cmp key other)) self.old ≡ None) }
    {
        self.entries.insert(key, value)?;
        Ok(())
    }

    /// Puts a value at a key that is there. It takes no memory.
    pub fn replace(&mut self, key: K, value: V)
        requires { IsSome (lookup (λ other. is_eq (K.cmp key other)) self.old) }
        ensures { self.new ≡ insert_entry K.cmp self.old key value }
    {
        match self.entries.insert(key, value) {
            Ok(_) => {}
            Err(_) => unreachable!(),
        }
    }

    /// Takes the entry of a key away.
    pub fn remove(&mut self, key: &K)
        ensures { self.new ≡ remove_entry (λ other. is_eq (K.cmp key.now other)) self.old }
    {
        self.entries.remove(key);
    }

    /// Keeps the entries that pass a test, which may also change their values.
    pub fn retain<F: FnMut(&K, &mut V) -> bool>(&mut self, test: F)
        requires { CallableOnEachPair (CalledAtPair F.FnMut) (TakesPair F.FnMut) test self.old }
        ensures { RetainsPairs (CalledAtPair F.FnMut) test self.old self.new }
    {
        self.entries.retain(test);
    }
}

impl<K: Ord + Exact, V: Exact> TryCopy for NameMap<K, V> {
    fn copy(&self) -> Mem<NameMap<K, V>> {
        let entries = self.entries.clone()?;
        Ok(NameMap { entries })
    }
}
