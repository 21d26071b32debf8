// From distances to bid and ask, in three parts: distances to whole billionths, the widening, and the
// judgement of any two prices.
#![tactic(auto)]

mod judging;
pub mod refusals;
mod rounding;
mod widening;

ghost use Rattle.std.specs.Prelude.{◌≡◌};
ghost use Rattle.amounts.specs.Amounts.{amount_ok};
ghost use Rattle.prices.specs.Prices.{each};

pub use judging::judge;
pub use rounding::round_sides;
pub use widening::{price_sides, widen};

// A price; at the bound one side is withheld. Before it is a price it is a side's distance in
// billionths.
pub type Price = Option<i64>;

#[derive(Clone, Copy)]
pub struct GlftQuotes {
    pub bid: Price,
    pub ask: Price,
}

// Whether a side is absent or within the amount limit.
pub(crate) fn side_fits(p: Price) -> bool
    ensures { result ≡ each amount_ok p }
{
    p.is_none_or(amounts::amount_fits)
}
