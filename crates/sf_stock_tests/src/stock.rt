ghost use Rattle.std.specs.Prelude.{◌≡◌, [], ◌∷◌, true, IfOk};
ghost use Rattle.sf_types.specs.Space.BlockRuns.{blocks_in};
ghost use Rattle.sf_stock.specs.Stocks.{is_stocked};
ghost use Rattle.sf_stock_tests.specs.Examples.{three_bytes};

use sf_dedup::print_of;
use sf_stock::{NewContent, Stock};
use sf_types::{Births, Blob, Holder, Mem, Run, Runs};
use std::alloc::Global;
use std::test::*;

// The content of three bytes, in the block 4.
fn new_content(alloc: Global) -> Mem<NewContent>
    ensures content { IfOk result (λ new. new.content ≡ three_bytes) }
    ensures blocks { IfOk result (λ new. blocks_in new.runs ≡ 4 ∷ []) }
{
    let content = Blob::new(alloc, &[7, 8, 9])?;
    let run = Run {
        first: 4,
        blocks: 1,
    };
    NewContent::new(alloc, &content, print_of(&content), true, &[run])
}

// A stock with that content.
fn one_content(alloc: Global) -> Mem<Stock>
    ensures { IfOk result (λ stock. is_stocked stock.held.stocked 1 ≡ true) }
{
    let mut stock = Stock::new(alloc)?;
    let new = new_content(alloc)?;
    stock.make_room(new.item_count())?;
    stock.place(new);
    Ok(stock)
}

// The birth of the three bytes where they are found, and the numbers of listed births, of live and of parked blocks.
fn state(alloc: Global, stock: &Stock) -> Mem<(Option<u128>, usize, u64, u64)> {
    let content = Blob::new(alloc, &[7, 8, 9])?;
    let found = stock.find(&print_of(&content), &content);
    let listed = stock.places()?.len();
    Ok((found, listed, stock.live_blocks(), stock.parked()))
}

// A session holds the content.
fn hold_it(alloc: Global, stock: &mut Stock) -> Mem<()>
    requires { is_stocked stock.old.held.stocked 1 ≡ true }
{
    stock.make_room(1)?;
    let mut births = Births::new(alloc);
    births.push(1)?;
    stock.hold(Holder::Session(1), births);
    Ok(())
}

// The runs that are ripe.
fn ripe(alloc: Global, stock: &mut Stock) -> Mem<Runs> {
    let mut into = Runs::new(alloc);
    into.make_room(stock.parked())?;
    stock.take_ripe(8, &mut into);
    Ok(into)
}

// The states of a stock while its content is held, after it was let go, and the ripe runs.
fn states(alloc: Global) -> Mem<([(Option<u128>, usize, u64, u64); 2], Runs)> {
    let mut stock = one_content(alloc)?;
    hold_it(alloc, &mut stock)?;
    let held = state(alloc, &stock)?;
    stock.drop_holder(&Holder::Session(1));
    stock.park_left();
    let left = state(alloc, &stock)?;
    Ok(([held, left], ripe(alloc, &mut stock)?))
}

#[test]
fn a_content_is_held_found_and_parked(rt: HostRuntime) -> Result<(), Fail> {
    let (states, runs) = states(rt.alloc())?;
    assert_eq!(rt; states, [(Some(1), 1, 1, 0), (None, 0, 0, 1)]);
    assert_eq!(rt; runs.len(), 1);
    for run in runs.as_slice() {
        assert_eq!(rt; run.first, 4);
        assert_eq!(rt; run.blocks, 1);
    }
    Ok(())
}
