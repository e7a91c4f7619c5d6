//! Holders that are given up, and what that frees.
ghost use Rattle.std.specs.Prelude.{◌≡◌, ◌≢◌, ◌++◌, ◌∷◌, [], All, IfOk};
ghost use Rattle.sf_lifetimes.specs.Ledgers.{freed_by, is_live, without_holders, with_given_up};

use crate::holding_map::HoldingMap;
use crate::place_map::PlaceMap;
use crate::tally::{TallyMap, count_births};
use sf_types::{Holder, Mem};
use std::marker::Model;

/// Holders of a ledger that are given up one after the other, seen as what the ledger holds and their list. The ledger stays as
/// it is. What they free together is counted as they are given up, in proportion to the births that they hold.
#[derive(Drop)]
pub struct GivenUp<'a> {
    pub(crate) places: &'a PlaceMap,
    pub(crate) holdings: &'a HoldingMap,
    pub(crate) holders: Vec<Holder>,
    pub(crate) tally: TallyMap,
}

impl<'a> Model for GivenUp<'a> {
    ghost use Rattle.std.specs.Coded.{coded_ℕ, coded_list};
    ghost use Rattle.std.specs.FinMap as fin;
    ghost use Rattle.sf_types.specs.contracts.run.Run as run;
    ghost use Rattle.sf_types.specs.contracts.holder.Holder as holder;
    ghost use Rattle.sf_lifetimes.specs.Ledgers.{GivenUpView};
    ghost use Rattle.sf_lifetimes.specs.Inside.Codes.{ledger_code, given_up_code};
    ghost use Rattle.sf_lifetimes.specs.Inside.GivenUp.{given_up_in, IsGivenUp};

    ghost Value = { GivenUpView };

    ghost coded = { given_up_code (ledger_code (fin.code coded_ℕ (coded_list run.the_row.coded)) (fin.code holder.the_row.coded (coded_list coded_ℕ))) (coded_list holder.the_row.coded) };

    ghost view = { λ g. given_up_in g.places.now.held g.holdings.now.held g.holders.items };

    ghost invariant = { λ g. IsGivenUp g.places.now.held g.holdings.now.held g.holders.items g.tally };
}

impl<'a> GivenUp<'a> {
    /// One holder more is given up, which wasn't before.
    pub fn give_up(self, holder: Holder) -> Mem<GivenUp<'a>>
        requires { All (λ other. other ≢ holder) self.holders }
        ensures { IfOk result (λ given. given ≡ with_given_up self.entry holder) }
    {
        let GivenUp {
            places,
            holdings,
            mut holders,
            mut tally,
        } = self;
        count_births(&mut tally, places, holdings.births_of(&holder))?;
        holders.push(holder)?;
        Ok(GivenUp {
            places,
            holdings,
            holders,
            tally,
        })
    }

    /// The number of blocks of the live births that none but these holders hold.
    pub fn freed_blocks(&self) -> u64
        ensures { result ≡ freed_by self.now.ledger self.now.holders }
    {
        self.tally.freed()
    }

    /// Whether some other holder holds a birth.
    pub fn is_held(&self, birth: u128) -> bool
        ensures { result ≡ is_live (without_holders self.now.ledger.holdings self.now.holders) birth }
    {
        self.tally.left(birth, self.places.holders_of(birth)) > 0
    }
}
