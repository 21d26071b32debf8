// EXP.
ghost use Rattle.std.specs.Prelude.{◌≡◌, ◌≤◌, true, false, T, pos, negsuc};
ghost use Rattle.std.specs.Float.Ieee.{lt, le, minus};
ghost use Rattle.elementary.specs.Float.{finite, whole, 0ᶠ};
ghost use Rattle.elementary.specs.Elementary.{exp_sum, exp_rest, exp_by, exp_of, exp_n, power2};

use crate::ln2::{HI, LO};

const LOG2E: f64 = 1.4426950408889634;

// The sum of r^j / j!, j = 0..13. Written out, as in `ln_sum`: a loop would read each coefficient from a table.
fn exp_sum(r: f64) -> f64
    ensures { result ≡ exp_sum r }
{
    let p = 1.0 / 6227020800.0;
    let p = p * r + 1.0 / 479001600.0;
    let p = p * r + 1.0 / 39916800.0;
    let p = p * r + 1.0 / 3628800.0;
    let p = p * r + 1.0 / 362880.0;
    let p = p * r + 1.0 / 40320.0;
    let p = p * r + 1.0 / 5040.0;
    let p = p * r + 1.0 / 720.0;
    let p = p * r + 1.0 / 120.0;
    let p = p * r + 1.0 / 24.0;
    let p = p * r + 1.0 / 6.0;
    let p = p * r + 1.0 / 2.0;
    let p = p * r + 1.0 / 1.0;
    p * r + 1.0 / 1.0
}

// x less n times ln 2, part by part.
fn exp_rest(x: f64, n: f64) -> f64
    ensures { result ≡ exp_rest x n }
{
    (x - n * HI) - n * LO
}

// 2^(n - 1023), for a normal result.
fn power(n: u64) -> f64
    requires { (1 ≤ n) × (n ≤ 2046) }
    ensures { result ≡ power2 (minus n 1023) }
{
    f64::from_bits(n * crate::split::HIDDEN)
}

// N of a number from 0 to 709.
fn exp_count(x: f64) -> u64
    requires not_below_zero { lt x 0ᶠ ≡ false }
    requires at_most_709 { T (le x (whole (pos 709))) }
    ensures { (pos result ≡ exp_n x) × (result ≤ 1023) }
{
    std::num::truncating_f64_to_u64(x * LOG2E + 0.5)
}

// The exponential of a number from 0 to 709.
fn exp_up(x: f64) -> f64
    requires not_below_zero { lt x 0ᶠ ≡ false }
    requires at_most_709 { T (le x (whole (pos 709))) }
    ensures { result ≡ exp_by x (exp_n x) }
{
    let n: u64 = exp_count(x);
    let m = std::num::nearest_u64_to_f64(n);
    exp_sum(exp_rest(x, m)) * power(1023 + n)
}

// The exponential of a number from -708 to 0: N is that of -x with the other sign.
fn exp_down(x: f64) -> f64
    requires below_zero { lt x 0ᶠ ≡ true }
    requires at_least_minus_708 { lt x (whole (negsuc 707)) ≡ false }
    ensures { result ≡ exp_by x (exp_n x) }
{
    let n: u64 = exp_count(-x);
    let m = 0.0 - std::num::nearest_u64_to_f64(n);
    exp_sum(exp_rest(x, m)) * power(1023 - n)
}

// The exponential of a finite number.
pub(crate) fn exp_finite(x: f64) -> f64
    requires { T (finite x) }
    ensures { result ≡ exp_of (lt (whole (pos 709)) x) (lt x (whole (negsuc 707))) x }
{
    if x > 709.0 {
        return f64::INFINITY;
    }
    if x < -708.0 {
        return 0.0;
    }
    if x < 0.0 { exp_down(x) } else { exp_up(x) }
}
