// The distances of the closed form.
ghost use Rattle.std.specs.Prelude.{◌≡◌};
ghost use Rattle.quote.specs.ClosedForm.{slope, form_bid, form_ask, closed_form_distances};

use distances::{Distance, Sides};
use model::Model;

// The slope c, or a NaN.
fn slope_of(m: Model) -> f64
    ensures { result ≡ slope m }
{
    let log1p_ratio = elementary::or_nan(elementary::ln_1p(m.gamma / m.k));
    let growth = elementary::or_nan(elementary::exp((1.0 + m.k / m.gamma) * log1p_ratio));
    elementary::or_nan(elementary::sqrt(m.sigma2 * m.gamma / (2.0 * m.k * m.a) * growth))
}

// Two formulas, as `form_bid` and `form_ask` of specs/ClosedForm are: one function for both would take signs that no
// definition has.
fn bid_of(allowed: bool, base: f64, c: f64, q: f64) -> Distance
    ensures { result ≡ form_bid allowed base c q }
{
    if allowed {
        return Some(base + (2.0 * q + 1.0) / 2.0 * c);
    }
    None
}

fn ask_of(allowed: bool, base: f64, c: f64, q: f64) -> Distance
    ensures { result ≡ form_ask allowed base c q }
{
    if allowed {
        return Some(base - (2.0 * q - 1.0) / 2.0 * c);
    }
    None
}

// The two distances at q lots: refused by 11.
pub(crate) fn distances(m: Model, q: i64) -> Sides
    ensures { result ≡ closed_form_distances m q }
{
    let c = slope_of(m);
    if elementary::is_positive_finite(c) {
        let bound = i64::from(m.q_max);
        let qf = std::num::nearest_i64_to_f64(q);
        let bid = bid_of(q < bound, m.base, c, qf);
        let ask = ask_of(-bound < q, m.base, c, qf);
        if distances::is_fine(bid) & distances::is_fine(ask) {
            return Ok((bid, ask));
        }
    }
    Err(vector::refusals::NUMERICAL)
}
