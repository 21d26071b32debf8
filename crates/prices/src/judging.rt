// The judgement of two prices.
ghost use Rattle.std.specs.Prelude.{◌≡◌};
ghost use Rattle.amounts.specs.Amounts.{above0};
ghost use Rattle.prices.specs.Prices.{each, in_order, judge};

use crate::refusals::CROSSED;
use crate::{GlftQuotes, Price, side_fits};
use amounts::is_positive;
use amounts::refusals::BEYOND;
use elementary::Refusal;

// Whether a side is absent or its price positive.
fn side_positive(p: Price) -> bool
    ensures { result ≡ each above0 p }
{
    p.is_none_or(is_positive)
}

// Whether the bid is below the ask, where both are there.
fn below(bid: Price, ask: Price) -> bool
    ensures { result ≡ in_order bid ask }
{
    match (bid, ask) {
        (Some(b), Some(a)) => b < a,
        _ => true,
    }
}

// Two prices as quotes: refused by 13 where one is beyond the limit, then by 14 where one is not
// positive or the bid is not below the ask.
pub fn judge(quotes: GlftQuotes) -> Result<GlftQuotes, Refusal>
    ensures { result ≡ judge quotes }
{
    let bid = quotes.bid;
    let ask = quotes.ask;
    if side_fits(bid) & side_fits(ask) {
        if side_positive(bid) & side_positive(ask) & below(bid, ask) {
            return Ok(quotes);
        }
        return Err(CROSSED);
    }
    Err(BEYOND)
}
