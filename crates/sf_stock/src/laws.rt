//! What several calls of a stock make of it together.
ghost use Rattle.std.specs.Prelude.{◌≡◌, [], ◌∷◌, ◌++◌, List};
ghost use Rattle.sf_types.specs.Play.Blocks.{places_by_first};
ghost use Rattle.sf_lifetimes.specs.Ledgers.{Holdings};
ghost use Rattle.sf_stock.specs.Stocks.{Stocked, StockView, NewContentView, IsSound, newcomer, places_of, with_new, with_holdings};
ghost use Rattle.sf_stock.specs.Since.{IsSince, departed};

/// Where nothing has left yet, the births of a stock have their places. A content that comes joins them, and where holders
/// change, those that leave have left. What left in all these calls is parked as if it had left at once: the places by their first
/// blocks.
pub fn calls_between_two_parkings_add_up()
    ensures nothing { (s : StockView) → s.left ≡ [] → IsSound s → IsSince s [] s }
    ensures placed { (before : StockView) (new : List Stocked) (s : StockView) (n : NewContentView) → IsSince before new s → IsSince before (new ++ newcomer s n ∷ []) (with_new s n) }
    ensures held { (before : StockView) (new : List Stocked) (s : StockView) (after : Holdings) → IsSince before new s → IsSince before new (with_holdings s after) }
    ensures parked { (before : StockView) (new : List Stocked) (s : StockView) → IsSince before new s → IsSound s → places_by_first s.left ≡ places_by_first (places_of (departed s.stocked (before.stocked ++ new))) }
{}
