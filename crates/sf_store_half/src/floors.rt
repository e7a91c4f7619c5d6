//! Versions that are given up as the floor rises.
ghost use Rattle.std.specs.Prelude.{◌≡◌, ◌≤◌};
ghost use Rattle.sf_store_half.specs.Inside.Floors.{AreDisplaced, stock_without, versions_without};

use sf_retention::{Pair, PairList};
use sf_stock::Stock;
use sf_types::Holder;
use sf_versions::Versions;

/// Gives up displaced versions, one after the other: they are forgotten, and what they held is let go. It takes no memory.
pub fn give_up(versions: &mut Versions, stock: &mut Stock, due: PairList)
    requires { AreDisplaced versions.old.held due }
    ensures versions { versions.new.held ≡ versions_without versions.old.held due }
    ensures stock { stock.new.held ≡ stock_without stock.old.held due }
    ensures versions_room { versions.old.spare ≤ versions.new.spare }
    ensures stock_room { stock.old.spare ≤ stock.new.spare }
{
    for pair in due.into_vec() {
        let Pair { name, from } = pair;
        versions.forget(&name, from);
        stock.drop_holder(&Holder::Version(name, from));
    }
}
