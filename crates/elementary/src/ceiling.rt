// Rounding up to a whole number.
ghost use Rattle.std.specs.Prelude.{◌≡◌, true, false, T};
ghost use Rattle.std.specs.Float.Ieee.{neg, lt};
ghost use Rattle.elementary.specs.Float.{finite, hex, 0ᶠ};
ghost use Rattle.elementary.specs.Elementary.{ceil_of};

// 2^52: a float of this size or more is a whole number. It stands beside `HIDDEN`, since a constant's value
// converts no integer to a float.
const WHOLE: f64 = 4503599627370496.0;

// Of a negative number the fraction is cut off, and the sign stays.
fn ceil_negative(x: f64) -> f64
    requires below_zero { lt x 0ᶠ ≡ true }
    requires small { T (lt (neg (hex 0x4330000000000000)) x) }
    ensures { result ≡ ceil_of x }
{
    let n: u64 = std::num::truncating_f64_to_u64(-x);
    -std::num::nearest_u64_to_f64(n)
}

// A number that is no whole one goes to the next.
fn ceil_small(x: f64) -> f64
    requires not_below_zero { lt x 0ᶠ ≡ false }
    requires small { T (lt x (hex 0x4330000000000000)) }
    ensures { result ≡ ceil_of x }
{
    let n: u64 = std::num::truncating_f64_to_u64(x);
    if std::num::nearest_u64_to_f64(n) < x {
        return std::num::nearest_u64_to_f64(n + 1);
    }
    x
}

// The least whole number that is not below x.
pub(crate) fn ceil_finite(x: f64) -> f64
    requires { T (finite x) }
    ensures { result ≡ ceil_of x }
{
    if x < 0.0 {
        if -WHOLE < x {
            return ceil_negative(x);
        }
        return x;
    }
    if x < WHOLE {
        return ceil_small(x);
    }
    x
}
