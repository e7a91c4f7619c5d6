//! Steps of a stock that end with a parking.
ghost use Rattle.std.specs.Prelude.{◌≡◌, ◌+◌, ◌≤◌, [], length, true, All};
ghost use Rattle.sf_types.specs.declared.holder.Holder.TheVariants.{Session, Promise};
ghost use Rattle.sf_stock.specs.Stocks.{IsSound, is_stocked, with_holder, with_left_parked};
ghost use Rattle.sf_store_half.specs.Inside.Floors.{AreDisplaced, stock_promised, versions_without};

use crate::floors::give_up;
use sf_retention::PairList;
use sf_stock::Stock;
use sf_types::{Births, Holder};
use sf_versions::Versions;

// A session holds these births from now on, and what nobody holds any more is parked.
pub fn keep_births(stock: &mut Stock, session: u16, births: Births)
    requires births { All (λ birth. is_stocked stock.old.held.stocked birth ≡ true) births }
    requires room { length births ≤ stock.old.spare }
    ensures sound { IsSound stock.old.held }
    ensures between { IsSound (with_holder stock.old.held (Session session) births) }
    ensures held { stock.new.held ≡ with_left_parked (with_holder stock.old.held (Session session) births) }
{
    let _sound = stock.next_birth();
    stock.hold(Holder::Session(session), births);
    let _between = stock.next_birth();
    stock.park_left();
}

// What a promise of a session held is let go, and what nobody holds any more is parked.
pub fn drop_promise(stock: &mut Stock, session: u16)
    ensures sound { IsSound stock.old.held }
    ensures between { IsSound (with_holder stock.old.held (Promise session) []) }
    ensures held { stock.new.held ≡ with_left_parked (with_holder stock.old.held (Promise session) []) }
{
    let _sound = stock.next_birth();
    stock.drop_holder(&Holder::Promise(session));
    let _between = stock.next_birth();
    stock.park_left();
}

// A session holds these births from now on, and its promise those that were found; versions that are due are given up; and what
// nobody holds any more is parked.
pub fn keep_promise(
    versions: &mut Versions,
    stock: &mut Stock,
    session: u16,
    births: Births,
    found: Births,
    due: PairList,
)
    requires due { AreDisplaced versions.old.held due }
    requires births { All (λ birth. is_stocked stock.old.held.stocked birth ≡ true) births }
    requires found { All (λ birth. is_stocked (with_holder stock.old.held (Session session) births).stocked birth ≡ true) found }
    requires room { length births + length found ≤ stock.old.spare }
    ensures versions { versions.new.held ≡ versions_without versions.old.held due }
    ensures sound { IsSound stock.old.held }
    ensures between { IsSound (stock_promised stock.old.held session births found due) }
    ensures held { stock.new.held ≡ with_left_parked (stock_promised stock.old.held session births found due) }
{
    let _sound = stock.next_birth();
    stock.hold(Holder::Session(session), births);
    stock.hold(Holder::Promise(session), found);
    give_up(versions, stock, due);
    let _between = stock.next_birth();
    stock.park_left();
}
