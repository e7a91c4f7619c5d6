//! New contents that are placed and held.
ghost use Rattle.std.specs.Prelude.{◌≡◌, ◌+◌, ◌≤◌, [], length, true, All};
ghost use Rattle.sf_types.specs.declared.holder.Holder.TheVariants.{Promise};
ghost use Rattle.sf_stock.specs.Stocks.{IsSound, is_stocked, with_holder, with_left_parked};
ghost use Rattle.sf_store_half.specs.Inside.Plans.{AreNewPlaces, items_of, published_stock, with_all_new};

use sf_stock::{NewContent, Stock};
use sf_types::{Births, Holder};

/// Places new contents, one after the other, within the room.
pub fn place_all(stock: &mut Stock, news: Vec<NewContent>)
    requires places { AreNewPlaces stock.old.held news.items }
    requires room { items_of news.items ≤ stock.old.spare }
    ensures held { stock.new.held ≡ with_all_new stock.old.held news.items }
    ensures spare { stock.old.spare ≤ stock.new.spare + items_of news.items }
{
    for content in news {
        let _birth = stock.place(content);
    }
}

/// Places new contents within the room. From now on a session holds these births, and its promise none; and what nobody holds any
/// more is parked. It takes no memory.
pub fn publish_births(stock: &mut Stock, session: u16, news: Vec<NewContent>, births: Births)
    requires places { AreNewPlaces stock.old.held news.items }
    requires births { All (λ birth. is_stocked (with_all_new stock.old.held news.items).stocked birth ≡ true) births }
    requires room { items_of news.items + length births ≤ stock.old.spare }
    ensures sound { IsSound stock.old.held }
    ensures between { IsSound (published_stock stock.old.held session news.items births) }
    ensures held { stock.new.held ≡ with_left_parked (published_stock stock.old.held session news.items births) }
{
    let _sound = stock.next_birth();
    place_all(stock, news);
    stock.hold(Holder::Session(session), births);
    stock.drop_holder(&Holder::Promise(session));
    let _between = stock.next_birth();
    stock.park_left();
}

/// What a promise of a session held is let go, and what nobody holds any more is parked, also of what left before. It takes no
/// memory.
pub fn end_hold(stock: &mut Stock, session: u16)
    ensures between { IsSound (with_holder stock.old.held (Promise session) []) }
    ensures held { stock.new.held ≡ with_left_parked (with_holder stock.old.held (Promise session) []) }
{
    stock.drop_holder(&Holder::Promise(session));
    let _between = stock.next_birth();
    stock.park_left();
}
