//! Contents that move together.
ghost use Rattle.std.specs.Prelude.{◌≡◌, [], length, map, All};
ghost use Rattle.sf_shrink.specs.Plans.{shifted_to};
ghost use Rattle.sf_types.specs.Space.Placings.{IsSafe};
ghost use Rattle.sf_book.specs.Books.{table_of};

use crate::book::Book;
use sf_shrink::ShiftList;

impl Book {
    /// Moves all contents together, each to the one run of its shift, where no block is parked. The places that the shifts are have
    /// to be a safe placing. Nothing else changes. It takes no memory.
    pub fn shift(&mut self, shifts: ShiftList)
        requires runs { All (λ shift. length shift.to ≡ 1) shifts }
        requires safe { IsSafe (table_of self.old) (map shifted_to shifts) }
        requires parked { self.old.parked ≡ [] }
        ensures { self.new ≡ record self.old { places = map shifted_to shifts } }
    {
        self.half.shift(shifts);
        let _next = self.half.next_birth();
    }
}
