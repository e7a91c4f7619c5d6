//! What fields that keep a half of the table tell of it.
ghost use Rattle.std.specs.Prelude.{◌≡◌, ℕ, true};
ghost use Rattle.sf_types.specs.declared.options.Options.{Options};
ghost use Rattle.sf_types.specs.Table.Parts.{opening_table};
ghost use Rattle.sf_types.specs.Space.Cuts.{Cut};
ghost use Rattle.sf_types.specs.Space.Use.{blocks_of_births};
ghost use Rattle.sf_types.specs.Space.Promises.{found_birth};
ghost use Rattle.sf_types.specs.Halves.Asks.{Half, half_of};
ghost use Rattle.sf_types.specs.Halves.Flushes.{half_reach};
ghost use Rattle.sf_stock.specs.Stocks.{IsSound, births_of, block_count, shared_birth};
ghost use Rattle.sf_store_half.specs.Fields.{Fields, Keeps, opening_fields};

/// The fields of a store to which nothing was done keep the half of the opening table.
pub fn opening_fields_keep_the_opening_half()
    ensures { (options : Options) (sessions : ℕ) → Keeps (opening_fields options sessions) (half_of (opening_table options sessions)) }
{}

/// The births that have a place are those in reach.
pub fn what_is_stocked_is_in_reach()
    ensures { (f : Fields) (h : Half) → Keeps f h → IsSound f.stock → births_of f.stock.stocked ≡ half_reach h }
{}

/// The blocks of the births in reach are those of the stock, so that free blocks are one subtraction; and a sharing cut is found as
/// the stock finds its bytes.
pub fn a_stock_tells_of_its_half()
    ensures in_use { (f : Fields) (h : Half) → Keeps f h → IsSound f.stock → block_count f.stock.stocked ≡ blocks_of_births h.contents (half_reach h) }
    ensures found { (f : Fields) (h : Half) (cut : Cut) → Keeps f h → IsSound f.stock → cut.is_sharing ≡ true → shared_birth f.stock.stocked cut.bytes ≡ found_birth h.contents (half_reach h) cut }
{}
