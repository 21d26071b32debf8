// Distances to whole billionths.
ghost use Rattle.std.specs.Prelude.{◌≡◌, true, ◌&&◌};
ghost use Rattle.distances.specs.Distances.{fine};
ghost use Rattle.amounts.specs.Amounts.{amount_ok};
ghost use Rattle.prices.specs.Prices.{each, side, rounded_if, rounded};
ghost use Rattle.prices.specs.Inner.{side_of};

use crate::Price;
use distances::{Distance, is_fine};
use elementary::Refusal;

// A side's distance in billionths: absent, or refused by 13 where it is beyond the limit.
// A closure: the check does not take `amounts::to_billionths` as it is, which a private module declares.
fn side_of(d: Distance) -> Result<Price, Refusal>
    requires { fine d ≡ true }
    ensures { result ≡ side_of (side d) }
{
    d.map(|x| amounts::to_billionths(x)).transpose()
}

// The sides of finite distances: refused by 13.
fn round_finite(bid: Distance, ask: Distance) -> Result<(Price, Price), Refusal>
    requires { (fine bid ≡ true) × (fine ask ≡ true) }
    ensures { result ≡ rounded_if true (each amount_ok (side bid) && each amount_ok (side ask)) (side bid) (side ask) }
{
    let b = side_of(bid)?;
    let a = side_of(ask)?;
    Ok((b, a))
}

// The two sides in whole billionths, each no less than its distance: refused by 11 where a distance is
// not finite, then by 13 where a count is beyond the limit.
pub fn round_sides(bid: Distance, ask: Distance) -> Result<(Price, Price), Refusal>
    ensures { result ≡ rounded bid ask }
{
    if is_fine(bid) {
        if is_fine(ask) {
            return round_finite(bid, ask);
        }
    }
    Err(vector::refusals::NUMERICAL)
}
