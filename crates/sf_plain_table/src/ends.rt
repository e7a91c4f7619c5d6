//! What the end of a transaction makes of a session's part.
ghost use Rattle.std.specs.Prelude.{◌≡◌, [], false};
ghost use Rattle.sf_types.specs.Calls.Savepoints.{with_losses};
ghost use Rattle.sf_types.specs.Calls.TransactionEnds.{clean_locators, after_commit, after_rollback, after_end};

use crate::rows::Rows;
use crate::session::Session;
use sf_types::NameMap;
use std::mem;

impl Session {
    // Closes the transaction, and erases the working values and all savepoints.
    fn forget(&mut self)
        ensures { self.new ≡ record self.old { is_open = false; working = []; savepoints = [] } }
    {
        self.is_open = false;
        self.working = NameMap::new(self.alloc);
        self.savepoints = Vec::new(self.alloc);
    }

    // Makes all locators clean.
    fn clean_locators(&mut self)
        ensures { self.new ≡ record self.old { locators = clean_locators self.old.locators } }
    {
        self.locators.retain(|_, locator| {
            locator.is_dirty = false;
            true
        });
    }

    // Makes each dirty locator lost.
    fn lose_dirty(&mut self)
        ensures { self.new ≡ record self.old { locators = with_losses (λ l. l.is_dirty) self.old.locators } }
    {
        let alloc = self.alloc;
        self.locators.retain(|_, locator| {
            if locator.is_dirty {
                locator.lose(alloc);
            }
            true
        });
    }

    /// What Commit does to the part where a transaction is open, and the working values. It takes no memory.
    pub fn commit(&mut self) -> Rows
        ensures part { self.new ≡ after_commit self.old }
        ensures working { result ≡ self.old.working }
    {
        let working = mem::replace(&mut self.working, NameMap::new(self.alloc));
        self.clean_locators();
        self.forget();
        working
    }

    /// Erases all savepoints. It takes no memory.
    pub fn erase_savepoints(&mut self)
        ensures { self.new ≡ record self.old { savepoints = [] } }
    {
        self.savepoints.clear();
    }

    /// What Rollback does to the part. It takes no memory.
    pub fn roll_back(&mut self)
        ensures { self.new ≡ after_rollback self.old }
    {
        self.lose_dirty();
        self.forget();
    }

    /// What End does to the part. It takes no memory.
    pub fn end(&mut self)
        ensures { self.new ≡ after_end self.old }
    {
        self.forget();
        self.locators = NameMap::new(self.alloc);
        self.has_ended = true;
    }
}
