// A distance in billionths. One that is no whole number of them goes up to the next, toward plus
// infinity: above zero it is rounded up, below zero cut.
ghost use Rattle.std.specs.Prelude.{◌≡◌, ◌+◌, ◌*◌, ◌^◌, ◌<◌, true, false, T, pos};
ghost use Rattle.std.specs.Float.Ieee.{neg, lt};
ghost use Rattle.elementary.specs.Float.{positive, hex};
ghost use Rattle.elementary.specs.WholeUp.{next};
ghost use Rattle.amounts.specs.Amounts.{billion};
ghost use Rattle.amounts.specs.Rounding.{billionths, to_billionths};
ghost use Rattle.amounts.specs.Inner.{size_by, count_of};

use crate::{BILLION, MAX_AMOUNT, refusals};
use elementary::{HIDDEN, Refusal};

// 2^23, the high word's weight. Every divisor below is a number of high words.
const WORD: u64 = 8388608;

// 2^-30. What is below has less than one billionth.
const LEAST: f64 = 9.313225746154785e-10;

// 2^30. What is not below has more billionths than the amount limit.
const MOST: f64 = 1073741824.0;

// A number of two words, high * 2^23 + low.
#[derive(Clone, Copy)]
struct Wide {
    high: u64,
    low: u64,
}

// The product with 10^9.
fn times_billion(n: u64) -> Wide
    requires { n < 2 ^ 53 }
    ensures { (result.high * 2 ^ 23 + result.low ≡ n * billion) × (result.high < 2 ^ 60) × (result.low < 2 ^ 23) }
{
    let low = n % WORD * BILLION;
    let high = n / WORD * BILLION;
    Wide {
        high: high + low / WORD,
        low: low % WORD,
    }
}

// p over unit * 2^23 as a whole number, cut or rounded up.
fn divided(p: Wide, unit: u64, cut: bool) -> u64
    requires words_fit { (p.high < 2 ^ 60) × (p.low < 2 ^ 23) }
    requires unit_fits { (0 < unit) × (unit < 2 ^ 60) }
    ensures { result ≡ next cut (p.high * 2 ^ 23 + p.low) (unit * 2 ^ 23) }
{
    let q = p.high / unit;
    let rest = p.high % unit;
    if cut {
        return q;
    }
    if 0 < rest + p.low {
        return q + 1;
    }
    q
}

// The billionths of a number from 2^-30 up to 2^30, which is its 53 digits over 2^(1075 - field), where
// `field` is the exponent's.
fn counted(x: f64, cut: bool) -> u64
    requires above_zero { T (positive x) }
    requires in_range { (lt x (hex 0x3E10000000000000) ≡ false) × (lt x (hex 0x41D0000000000000) ≡ true) }
    ensures { result ≡ size_by cut x }
{
    let bits = x.to_bits();
    let field = bits / HIDDEN;
    divided(
        times_billion(bits % HIDDEN + HIDDEN),
        1 << (1052 - field),
        cut,
    )
}

// The billionths of a positive number, cut or rounded up: refused by 13 where they are beyond the
// limit.
fn sized(x: f64, cut: bool) -> Result<i64, Refusal>
    requires { T (positive x) }
    ensures { result ≡ count_of (pos (size_by cut x)) }
{
    if x < LEAST {
        if cut {
            return Ok(0);
        }
        return Ok(1);
    }
    if x < MOST {
        let n = counted(x, cut);
        if n <= MAX_AMOUNT as u64 {
            return Ok(n as i64);
        }
    }
    Err(refusals::BEYOND)
}

// The count of a negative number, whose opposite is cut.
fn below_zero(x: f64) -> Result<i64, Refusal>
    requires { T (positive (neg x)) }
    ensures { result ≡ count_of (billionths x) }
{
    let n = sized(-x, true)?;
    Ok(-n)
}

// The count of a finite distance. Of what is not finite it is 0.
fn count_of(d: f64) -> Result<i64, Refusal>
    ensures { result ≡ count_of (billionths d) }
{
    if elementary::is_positive_finite(d) {
        return sized(d, false);
    }
    if elementary::is_positive_finite(-d) {
        return below_zero(d);
    }
    Ok(0)
}

// The count of a distance: refused by 11 where it is not finite, by 13 where the count is beyond the
// limit.
pub fn to_billionths(d: f64) -> Result<i64, Refusal>
    ensures { result ≡ to_billionths d }
{
    if elementary::is_finite(d) {
        return count_of(d);
    }
    Err(series::refusals::NUMERICAL)
}
