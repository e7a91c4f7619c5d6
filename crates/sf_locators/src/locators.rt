//! The locators of a session, by name.
ghost use Rattle.std.specs.Prelude.{◌≡◌, ◌+◌, ◌≤◌, [], false, true, not, length, slice_get, IsSome, Some, OnOk};
ghost use Rattle.std.specs.Option.{option_copied, option_map};
ghost use Rattle.std.specs.Map.{keys_of};
ghost use Rattle.std.specs.Map.Iter.{deref_pair};
ghost use Rattle.std.specs.List.Sorted.{IsStrictlySortedBy};
ghost use Rattle.sf_types.specs.declared.limits.TheConstants.{SESSION_LOCATORS};
ghost use Rattle.sf_types.specs.Rooms.{MakesRoom, GrowsWithin};
ghost use Rattle.sf_types.specs.Values.Names.{name_cmp};
ghost use Rattle.sf_types.specs.Inside.NameMaps.{get, has, with_entry, without_entry};
ghost use Rattle.sf_types.specs.Table.Parts.{Locator as TableLocator, Savepoint, Session};
ghost use Rattle.sf_types.specs.Table.Sessions.{lacks_room, transaction_number};
ghost use Rattle.sf_types.specs.Calls.Refusals.{first_refusal};
ghost use Rattle.sf_types.specs.Calls.Savepoints.{is_since, with_losses};
ghost use Rattle.sf_types.specs.Calls.TransactionEnds.{clean_locators};
ghost use Rattle.sf_locators.specs.LocatorWrites.{session_with, write_refusals, locators_added};
ghost use Rattle.sf_locators.specs.Inside.LocatorFaults.{fault_of};

use crate::changes::{Cleaning, Loss, LossSince, WriteThrough};
use crate::locator::Locator;
use sf_chunk_map::Map;
use sf_sorted_map::SortedMap;
use sf_types::{Fault, LocName, Mem, SESSION_LOCATORS};
use std::alloc::Global;
use std::marker::Model;

/// The locators of a session, seen as a finite map from their names, with room for more. There are at most 256.
#[derive(Drop)]
pub struct Locators {
    locators: SortedMap<LocName, Locator>,
    alloc: Global,
}

impl Model for Locators {
    ghost use Rattle.std.specs.Prelude.{◌≤◌, length};
    ghost use Rattle.sf_types.specs.declared.limits.TheConstants.{SESSION_LOCATORS};
    ghost use Rattle.sf_types.specs.Rooms.{Roomy};
    ghost use Rattle.sf_types.specs.Inside.NameMaps.{NameMap};
    ghost use Rattle.sf_types.specs.Table.Parts.{Locator as TableLocator};

    ghost Value = { Roomy (NameMap TableLocator) };

    ghost view = { λ l. l.locators };

    ghost invariant = { λ l. length l.locators.held ≤ SESSION_LOCATORS };
}

impl Locators {
    /// No locators. It takes no memory.
    pub fn new(alloc: Global) -> Locators
        ensures { result.held ≡ [] }
    {
        Locators {
            locators: SortedMap::new(alloc),
            alloc,
        }
    }

    /// Makes room for so many locators more, which `set` then adds without memory.
    pub fn make_room(&mut self, locators: u64) -> Mem<()>
        ensures { MakesRoom self.old self.new locators result }
    {
        self.locators.make_room(locators)
    }

    /// The number of locators, 256 at most.
    pub fn len(&self) -> usize
        ensures len { result ≡ length self.now.held }
        ensures most { result ≤ SESSION_LOCATORS }
        ensures rising { IsStrictlySortedBy name_cmp (keys_of self.now.held) }
    {
        self.locators.len()
    }

    /// The locator of a name. None exactly where it isn't there.
    pub fn get(&self, name: &LocName) -> Option<&Locator>
        ensures { option_copied result ≡ get self.now.held name.now }
    {
        self.locators.get(name)
    }

    /// Whether a locator of that name can be set: it is there, or there are fewer than 256.
    pub fn has_room(&self, name: &LocName) -> bool
        ensures { result ≡ not (lacks_room (session_with self.now.held) name.now) }
    {
        self.get(name).is_some() || self.locators.len() < SESSION_LOCATORS
    }

    /// The k-th locator in byte order of names, counted from 0, with its name. None exactly where there are at most k. It
    /// takes no memory, and no more time for a later one.
    pub fn entry(&self, k: usize) -> Option<(&LocName, &Locator)>
        ensures { option_map deref_pair result ≡ slice_get self.now.held k }
    {
        self.locators.entry(k)
    }

    // The first fault of a write through the locator of a name, where it is there.
    fn fault(&self, name: &LocName, txn: u64, held: bool) -> Option<Fault>
        ensures { result ≡ fault_of (get self.now.held name.now) txn held }
    {
        match self.get(name) {
            Some(locator) => locator.write_fault(txn, held),
            None => Some(Fault::UnknownLocator),
        }
    }

    /// The first refusal of a write through the locator of a name, from UnknownLocator to RowNotLocked: `txn` is the number of
    /// the session's open transaction (0 for none), and `held` says whether the session holds the lock of the locator's row.
    pub fn check_write(&self, name: &LocName, txn: u64, held: bool) -> Option<Fault>
        ensures { (p : Session) → p.locators ≡ self.now.held → transaction_number p ≡ txn → result ≡ first_refusal (write_refusals p held name.now) }
    {
        self.fault(name, txn, held)
    }

    /// Sets the locator of a name, for which there has to be room. Where the name is there already, it takes no memory. After
    /// want of memory nothing has changed.
    pub fn set(&mut self, name: LocName, locator: Locator) -> Mem<()>
        requires { lacks_room (session_with self.old.held) name ≡ false }
        ensures held { OnOk result (self.new.held ≡ with_entry self.old.held name locator) }
        ensures room { GrowsWithin self.old self.new (locators_added self.old.held name) (locators_added self.old.held name) result }
    {
        let _locators = self.locators.len();
        self.locators.insert(name, locator)
    }

    /// Sets the locator of a name, for which there has to be room, and gives the one that it had. It takes no memory.
    pub fn set_within(&mut self, name: LocName, locator: Locator) -> Option<Locator>
        requires limit { lacks_room (session_with self.old.held) name ≡ false }
        requires room { locators_added self.old.held name ≤ self.old.spare }
        ensures old { result ≡ get self.old.held name }
        ensures held { self.new.held ≡ with_entry self.old.held name locator }
        ensures spare { self.old.spare ≤ self.new.spare + locators_added self.old.held name }
    {
        let _locators = self.locators.len();
        if self.locators.get(&name).is_some() {
            Some(self.locators.replace(&name, locator))
        } else {
            self.locators.insert_within(name, locator);
            None
        }
    }

    /// Takes a locator away, and gives it. None exactly where there is none of that name. It takes no memory.
    pub fn take(&mut self, name: &LocName) -> Option<Locator>
        ensures taken { result ≡ get self.old.held name.now }
        ensures held { self.new.held ≡ without_entry self.old.held name.now }
        ensures spare { self.old.spare ≤ self.new.spare }
    {
        self.locators.remove(name)
    }

    /// Takes a locator away. False exactly where there is none of that name. It takes no memory.
    pub fn free(&mut self, name: &LocName) -> bool
        ensures freed { result ≡ has self.old.held name.now }
        ensures held { self.new.held ≡ without_entry self.old.held name.now }
        ensures spare { self.old.spare ≤ self.new.spare }
    {
        self.take(name).is_some()
    }

    /// Gives a locator that is there the value that was written through it, in the transaction with the number `txn` and the
    /// session's epoch: it is dirty then. It takes no memory.
    pub fn write(&mut self, name: &LocName, map: Map, txn: u64, epoch: u64)
        requires { IsSome (get self.old.held name.now) }
        ensures held { (l : TableLocator) → get self.old.held name.now ≡ Some l → self.new.held ≡ with_entry self.old.held name.now (record l { value = map; transaction = txn; epoch = epoch; is_dirty = true }) }
        ensures spare { self.new.spare ≡ self.old.spare }
    {
        // The names rise, so that no locator is added.
        let _locators = self.locators.len();
        let mut write = WriteThrough { map, txn, epoch };
        self.locators.exchange(name, &mut write);
    }

    /// Makes all locators clean, as a commit does. It takes no memory.
    pub fn committed(&mut self)
        ensures held { self.new.held ≡ clean_locators self.old.held }
        ensures spare { self.new.spare ≡ self.old.spare }
    {
        self.locators.change_values(&Cleaning);
    }

    /// Each dirty locator becomes lost, with an empty value, as a rollback has it. It takes no memory.
    pub fn rolled_back(&mut self)
        ensures held { self.new.held ≡ with_losses (λ l. l.is_dirty) self.old.held }
        ensures spare { self.new.spare ≡ self.old.spare }
    {
        self.locators.change_values(&Loss { alloc: self.alloc });
    }

    /// Each dirty locator whose epoch is at least that of a savepoint becomes lost, with an empty value. It takes no memory.
    pub fn rolled_back_to(&mut self, epoch: u64)
        ensures held { (x : Savepoint) → x.epoch ≡ epoch → self.new.held ≡ with_losses (is_since x) self.old.held }
        ensures spare { self.new.spare ≡ self.old.spare }
    {
        self.locators.change_values(&LossSince {
            alloc: self.alloc,
            epoch,
        });
    }
}
