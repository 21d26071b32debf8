// The widening of a spread that is short of the minimum, and the prices around a mid.
ghost use Rattle.std.specs.Prelude.{◌≡◌, ◌*◌, ◌≤◌, nat_abs, T};
ghost use Rattle.amounts.specs.Amounts.{amount_limit, amount_ok};
ghost use Rattle.prices.specs.Prices.{each, half_up, widening, bid_price, ask_price, widen, price_sides};

use crate::{GlftQuotes, Price, side_fits};
use amounts::amount_fits;
use amounts::refusals::{BEYOND, LIMITS};
use elementary::Refusal;

// Half of what a spread is short of the minimum, rounded up.
fn half_shortfall(short: i64) -> i64
    requires { nat_abs short ≤ 3 * amount_limit }
    ensures { result ≡ half_up short }
{
    if 0 < short {
        return (short + 1) / 2;
    }
    0
}

// How far each price moves outward: only where both are there.
fn moved(least: i64, bid: Price, ask: Price) -> i64
    requires { T (amount_ok least) × T (each amount_ok bid) × T (each amount_ok ask) }
    ensures { result ≡ widening least bid ask }
{
    match (bid, ask) {
        (Some(b), Some(a)) => half_shortfall(least - (b + a)),
        _ => 0,
    }
}

// Down from the mid, and the ask's up from it, as `bid_price` and `ask_price` of specs/Prices are two: one function
// for both would take a sign that no definition has.
fn bid_price(mid: i64, w: i64, bid: Price) -> Price
    requires { T (amount_ok mid) × (nat_abs w ≤ 3 * amount_limit) × T (each amount_ok bid) }
    ensures { result ≡ bid_price mid w bid }
{
    bid.map(|d| mid - (d + w))
}

fn ask_price(mid: i64, w: i64, ask: Price) -> Price
    requires { T (amount_ok mid) × (nat_abs w ≤ 3 * amount_limit) × T (each amount_ok ask) }
    ensures { result ≡ ask_price mid w ask }
{
    ask.map(|d| mid + (d + w))
}

// The prices of two sides' distances around a mid. Where both are there and the spread is short of the
// minimum, each is moved outward by half the shortfall, rounded up. Refused by 2 where the mid or the
// min spread is beyond the limit, by 13 where a distance is. The prices are not judged.
pub fn widen(mid: i64, min_spread: i64, bid: Price, ask: Price) -> Result<GlftQuotes, Refusal>
    ensures { result ≡ widen mid min_spread bid ask }
{
    if amount_fits(mid) & amount_fits(min_spread) {
        if side_fits(bid) & side_fits(ask) {
            let w = moved(min_spread, bid, ask);
            return Ok(GlftQuotes {
                bid: bid_price(mid, w, bid),
                ask: ask_price(mid, w, ask),
            });
        }
        return Err(BEYOND);
    }
    Err(LIMITS)
}

// The prices of two sides' distances around a mid, whatever their spread. Refused by 2 where the mid is
// beyond the limit, by 13 where a distance is. The prices are not judged.
pub fn price_sides(mid: i64, bid: Price, ask: Price) -> Result<GlftQuotes, Refusal>
    ensures { result ≡ price_sides mid bid ask }
{
    if amount_fits(mid) {
        if side_fits(bid) & side_fits(ask) {
            return Ok(GlftQuotes {
                bid: bid_price(mid, 0, bid),
                ask: ask_price(mid, 0, ask),
            });
        }
        return Err(BEYOND);
    }
    Err(LIMITS)
}
