// LN and LN1P.
ghost use Rattle.std.specs.Prelude.{◌≡◌, ◌≤◌, T, pos};
ghost use Rattle.std.specs.Float.{binary64};
ghost use Rattle.std.specs.Float.Ieee.{minus, of_int};
ghost use Rattle.elementary.specs.Float.{positive, whole};
ghost use Rattle.elementary.specs.Elementary.{ln_sum, ln_series, ln_join, ln_parts, ln_of};

use crate::ln2::{HI, LO};

// The bits of 1.0 without its fraction's.
const ONE_BITS: u64 = 4607182418800017408;

// P: the sum of z^j / (2j + 1), j = 0..11.
fn ln_sum(z: f64) -> f64
    ensures { result ≡ ln_sum z }
{
    let p = 1.0 / 23.0;
    let p = p * z + 1.0 / 21.0;
    let p = p * z + 1.0 / 19.0;
    let p = p * z + 1.0 / 17.0;
    let p = p * z + 1.0 / 15.0;
    let p = p * z + 1.0 / 13.0;
    let p = p * z + 1.0 / 11.0;
    let p = p * z + 1.0 / 9.0;
    let p = p * z + 1.0 / 7.0;
    let p = p * z + 1.0 / 5.0;
    let p = p * z + 1.0 / 3.0;
    p * z + 1.0 / 1.0
}

// (2 * s) * P.
pub(crate) fn ln_series(s: f64) -> f64
    ensures { result ≡ ln_series s }
{
    (2.0 * s) * ln_sum(s * s)
}

// The parts put together: e * HI + ((2 * s) * P + e * LO).
fn ln_join(e: f64, s: f64) -> f64
    ensures { result ≡ ln_join e s }
{
    e * HI + (ln_series(s) + e * LO)
}

// The logarithm of f * 2^(size - 1075).
fn ln_parts(f: f64, size: u64) -> f64
    requires { size ≤ 2100 }
    ensures { result ≡ ln_parts f (minus size 1075) }
{
    let e = std::num::nearest_u64_to_f64(size) - 1075.0;
    ln_join(e, (f - 1.0) / (f + 1.0))
}

// The logarithm of a positive finite number.
pub(crate) fn ln_positive(x: f64) -> f64
    requires { T (positive x) }
    ensures { result ≡ ln_of x }
{
    let s = crate::split::split(x);
    let f: f64 = f64::from_bits(ONE_BITS + s.digits % crate::split::HIDDEN);
    if f > 1.5 {
        return ln_parts(f * 0.5, s.size + 1);
    }
    ln_parts(f, s.size)
}
