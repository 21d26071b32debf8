// The distances at one place of a value vector.
ghost use Rattle.std.specs.Prelude.{◌≡◌, ◌≤◌, ◌&&◌, [], map, nat_abs};
ghost use Rattle.elementary.specs.Float.{◌⊕◌, ◌⊖◌, ◌⊘◌, positive};
ghost use Rattle.elementary.specs.Elementary.{LN, or_nan};
ghost use Rattle.elementary.specs.Checks.{first_failing, check_of};
ghost use Rattle.distances.specs.Distances.{lent, length_ok, place, fine, sides, distance_checks, exact_distances};

use crate::lent::{Lent, Number, sides_at};
use crate::refusals::HOLDING;
use crate::{Distance, Sides};
use elementary::Refusal;
use vector::MAX_INVENTORY_LOTS;
use vector::refusals::{CONFIGURATION, NUMERICAL};

// The model's two floats in every distance: a difference is divided by k, and base is added.
#[derive(Clone, Copy)]
pub(crate) struct Scale {
    pub(crate) k: f64,
    pub(crate) base: f64,
}

// Whether k and base are finite and above zero.
pub(crate) fn scale_fits(scale: Scale) -> bool
    ensures { result ≡ (positive scale.k && positive scale.base) }
{
    elementary::is_positive_finite(scale.k) & elementary::is_positive_finite(scale.base)
}

// Whether a length is 2 * bound + 1 for a bound of 1 to 200.
pub(crate) fn length_fits(n: usize) -> bool
    ensures { result ≡ length_ok n }
{
    let half = n / 2;
    (1 <= half) & (half <= MAX_INVENTORY_LOTS as usize) & (n % 2 == 1)
}

// The place of q lots: q + bound.
pub(crate) fn place_of(q: i64, bound: u32) -> usize
    requires { nat_abs q ≤ bound }
    ensures { result ≡ place bound q }
{
    (q + i64::from(bound)) as usize
}

// ((LN w - LN x) + (o - p)) / k + base, from an entry's weight w and offset o to its neighbour's.
pub(crate) fn distance_between(w: f64, o: f64, x: f64, p: f64, scale: Scale) -> f64
    ensures { result ≡ (or_nan (LN w) ⊖ or_nan (LN x) ⊕ (o ⊖ p)) ⊘ scale.k ⊕ scale.base }
{
    let a = elementary::or_nan(elementary::ln(w));
    let b = elementary::or_nan(elementary::ln(x));
    ((a - b) + (o - p)) / scale.k + scale.base
}

// Both sides, where both are fine.
pub(crate) fn both(bid: Distance, ask: Distance) -> Sides
    ensures { result ≡ sides (fine bid && fine ask) bid ask }
{
    if crate::is_fine(bid) & crate::is_fine(ask) {
        return Ok((bid, ask));
    }
    Err(NUMERICAL)
}

// Whether distances can be read at q lots of a vector of n entries: refused by 5, then 1, then 4.
pub(crate) fn check_read(n: usize, scale: Scale, q: i64) -> Result<(), Refusal>
    ensures { result ≡ check_of (first_failing (distance_checks (lent n [] []) scale.k scale.base q)) }
{
    if scale_fits(scale) {
        if length_fits(n) {
            if crate::within(q, (n / 2) as u32) {
                return Ok(());
            }
            return Err(HOLDING);
        }
        return Err(CONFIGURATION);
    }
    Err(elementary::OUTSIDE)
}

// The distances at q lots of a vector: refused by 5, then 1, then 4, then 11.
pub(crate) fn distances_in<T: Number>(v: Lent<'_, T>, scale: Scale, q: i64) -> Sides
    ensures { result ≡ exact_distances (lent v.entry.n (map T.float v.entry.w.now) (map T.float v.entry.log_offset.now)) scale.k scale.base q }
{
    check_read(v.n, scale, q)?;
    sides_at(v.w, v.log_offset, v.n, scale, place_of(q, (v.n / 2) as u32))
}
