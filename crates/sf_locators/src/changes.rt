//! What a write, or the end of a transaction or of a part of it, makes of a locator.
ghost use Rattle.std.specs.Prelude.{false, true, ◌&&◌, nat_le, if◌then◌else◌};
ghost use Rattle.sf_types.specs.Calls.Savepoints.{lost_locator};

use crate::locator::Locator;
use sf_chunk_map::Map;
use sf_room_map::{Change, Exchange};
use std::alloc::Global;
use std::mem;

/// A commit: the locator is clean.
#[derive(Drop)]
pub struct Cleaning;

impl Change<Locator> for Cleaning {
    ghost changed = { λ cleaning l. record l { is_dirty = false } };

    fn change(&self, locator: &mut Locator) {
        locator.dirty = false;
    }
}

/// A rollback: the locator is lost where it is dirty.
#[derive(Drop)]
pub struct Loss {
    pub alloc: Global,
}

impl Change<Locator> for Loss {
    ghost changed = { λ loss l. if l.is_dirty then lost_locator l else l };

    fn change(&self, locator: &mut Locator) {
        if locator.dirty {
            locator.lose(self.alloc);
        }
    }
}

/// A rollback to a savepoint with this epoch: the locator is lost where it is dirty and its epoch is at least that.
#[derive(Drop)]
pub struct LossSince {
    pub alloc: Global,
    pub epoch: u64,
}

impl Change<Locator> for LossSince {
    ghost changed = { λ loss l. if l.is_dirty && nat_le loss.epoch l.epoch then lost_locator l else l };

    fn change(&self, locator: &mut Locator) {
        if locator.dirty && self.epoch <= locator.epoch {
            locator.lose(self.alloc);
        }
    }
}

/// A write through a locator, by its result, the number of its transaction and the session's epoch. It takes the locator's
/// value in exchange.
#[derive(Drop)]
pub struct WriteThrough {
    pub map: Map,
    pub txn: u64,
    pub epoch: u64,
}

impl Exchange<Locator> for WriteThrough {
    ghost given = { λ write l. record l { value = write.map; transaction = write.txn; epoch = write.epoch; is_dirty = true } };

    ghost taken = { λ write l. record write { map = l.value } };

    fn exchange(&mut self, locator: &mut Locator) {
        mem::swap(&mut self.map, &mut locator.map);
        locator.txn = self.txn;
        locator.epoch = self.epoch;
        locator.dirty = true;
    }
}
