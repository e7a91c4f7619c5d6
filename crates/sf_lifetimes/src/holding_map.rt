//! The births of each holder.
ghost use Rattle.std.specs.Prelude.{◌≡◌, ◌≤◌, ◌<◌, ◌-◌, ◌^◌, ◌+◌, cond, length, None, is_some, OnOk, IsOk};
ghost use Rattle.std.specs.Option.{option_copied};
ghost use Rattle.std.specs.FinMap as fin;
ghost use Rattle.sf_types.specs.Inside.Births.{IsRising};
ghost use Rattle.sf_types.specs.Rooms.{MakesRoom};
ghost use Rattle.sf_lifetimes.specs.Ledgers.{held_by, with_births};

use crate::holder_key::HolderKey;
use sf_room_map::RoomMap;
use sf_types::{Births, Holder, Mem};
use std::alloc::Global;
use std::marker::Model;

/// Holdings, seen as a finite map from holders to their births, with room for more holders.
#[derive(Drop)]
pub struct HoldingMap {
    entries: RoomMap<HolderKey, Births>,
}

impl Model for HoldingMap {
    ghost use Rattle.std.specs.FinMap as fin;
    ghost use Rattle.std.specs.Prelude.{ℕ, List};
    ghost use Rattle.sf_types.specs.Rooms.{Roomy};
    ghost use Rattle.sf_types.specs.Inside.Holders.{holder_cmp};
    ghost use Rattle.std.specs.Coded.{coded_ℕ, coded_list};
    ghost use Rattle.sf_types.specs.contracts.holder.Holder as holder;
    ghost use Rattle.sf_room_map.specs.Inside.Sorted.{roomy_code};

    ghost Value = { Roomy (fin.FinMap holder_cmp (List ℕ)) };

    ghost coded = { roomy_code (fin.code holder.the_row.coded (coded_list coded_ℕ)) };

    ghost view = { λ m. record { held = fin.from_entries m.entries.held; spare = m.entries.spare } };
}

impl HoldingMap {
    // No holders.
    pub fn new(alloc: Global) -> HoldingMap
        ensures { result.held ≡ fin.empty }
    {
        HoldingMap {
            entries: RoomMap::new(alloc),
        }
    }

    // Makes room for so many holders more.
    pub fn make_room(&mut self, count: u64) -> Mem<()>
        ensures { MakesRoom self.old self.new count result }
    {
        self.entries.make_room(count)
    }

    // The births of a holder.
    fn get(&self, holder: &Holder) -> Option<&Births>
        ensures { option_copied result ≡ fin.get self.now.held holder.now }
    {
        self.entries.get(&HolderKey::of(holder))
    }

    // Takes a holder out.
    pub fn remove(&mut self, holder: &Holder)
        ensures held { self.new.held ≡ fin.remove self.old.held holder.now }
        ensures spare { self.old.spare ≤ self.new.spare }
    {
        // Each holder stands once among the entries, so that it is gone with the one.
        let _ = self.entries.len();
        self.entries.remove(&HolderKey::of(holder));
    }

    // Fewer holders than 2^63 hold births.
    pub fn bound(&self)
        ensures { fin.len self.now.held < 2 ^ 63 }
    {
        let _ = self.entries.len();
    }

    // The births of a holder, none where it has no entry.
    pub fn births_of(&self, holder: &Holder) -> &[u128]
        ensures births { result.now ≡ held_by self.now.held holder.now }
        ensures rising { IsRising result.now }
    {
        match self.get(holder) {
            Some(births) => births.as_slice(),
            None => &[],
        }
    }

    // Makes room for a holder with so many births, where there are some and the holder is new.
    pub fn make_room_for(&mut self, holder: &Holder, count: usize) -> Mem<()>
        ensures done { count - length (held_by self.old.held holder.now) ≤ self.old.spare → IsOk result }
        ensures held { self.new.held ≡ self.old.held }
        ensures spare { self.old.spare ≤ self.new.spare }
        ensures room { OnOk result (1 ≤ count → fin.get self.new.held holder.now ≡ None → 1 ≤ self.new.spare) }
    {
        if count > 0 && self.get(holder).is_none() {
            self.make_room(1)?;
        }
        Ok(())
    }

    // Puts the births of a holder in place of those that it had, within the room where the holder is new. It takes no memory.
    fn insert(&mut self, holder: &Holder, births: Births)
        requires { fin.get self.old.held holder.now ≡ None → 1 ≤ self.old.spare }
        ensures held { self.new.held ≡ fin.insert self.old.held holder.now births }
        ensures spare { self.old.spare ≤ self.new.spare + cond (is_some (fin.get self.old.held holder.now)) 0 1 }
    {
        self.entries.insert_within(HolderKey::of(holder), births);
    }

    // Puts what a holder holds in place of what it held, within the room where the holder is new. It takes no memory.
    pub fn replace(&mut self, holder: Holder, births: Births)
        requires { 1 ≤ length births → fin.get self.old.held holder ≡ None → 1 ≤ self.old.spare }
        ensures held { self.new.held ≡ with_births self.old.held holder births }
        ensures spare { self.old.spare ≤ self.new.spare + (length births - length (held_by self.old.held holder)) }
    {
        if births.as_slice().is_empty() {
            self.remove(&holder);
        } else {
            self.insert(&holder, births);
        }
    }
}
