//! What the end of a transaction, or of a part of it, makes of a session's own part.
ghost use Rattle.std.specs.Prelude.{◌≡◌, [], false};
ghost use Rattle.sf_types.specs.Calls.TransactionEnds.{after_commit, after_rollback, after_end};

use crate::own_part::OwnPart;
use sf_sorted_map::SortedMap;

impl OwnPart {
    // Erases all savepoints, and releases all rows.
    fn forget(&mut self)
        ensures { self.new.held ≡ record {
          part = record self.old.held.part { is_open = false; savepoints = [] };
          rows = [];
        } }
    {
        self.is_open = false;
        self.savepoints.clear();
        self.rows = SortedMap::new(self.alloc);
    }

    /// What a Commit makes of the own part where a transaction is open. It takes no memory.
    pub fn commit(&mut self)
        ensures { self.new.held ≡ record { part = after_commit self.old.held.part; rows = [] } }
    {
        self.forget();
        self.values.commit();
    }

    /// What a Commit makes of the own part where no transaction is open: the savepoints are erased. It takes no memory.
    pub fn erase_savepoints(&mut self)
        ensures { self.new.held ≡ record self.old.held { part = record self.old.held.part { savepoints = [] } } }
    {
        self.savepoints.clear();
    }

    /// What a Rollback makes of the own part. It takes no memory.
    pub fn roll_back(&mut self)
        ensures { self.new.held ≡ record { part = after_rollback self.old.held.part; rows = [] } }
    {
        self.forget();
        self.values.roll_back();
    }

    /// What an End makes of the own part. It takes no memory.
    pub fn end(&mut self)
        ensures { self.new.held ≡ record { part = after_end self.old.held.part; rows = [] } }
    {
        self.forget();
        self.values.end();
        self.ended = true;
    }
}
