// A positive finite number taken apart: x is n units of 2^-1074, and n has so many binary digits.
ghost use Rattle.std.specs.Prelude.{◌≡◌, ◌≤◌, T};
ghost use Rattle.std.specs.Float.{binary64};
ghost use Rattle.std.specs.Float.Ieee.{size};
ghost use Rattle.elementary.specs.Float.{positive, count};
ghost use Rattle.elementary.specs.Inner.{SplitOf};

// 2^52, the weight of a significand's leading digit.
pub const HIDDEN: u64 = 4503599627370496;

// The 53 leading digits of n, and the count of its digits.
#[derive(Clone, Copy)]
pub(crate) struct Parts {
    pub(crate) digits: u64,
    pub(crate) size: u64,
}

// Of a normal number the bits have both.
fn split_normal(x: f64) -> Parts
    requires above_zero { T (positive x) }
    requires normal { 53 ≤ size (count binary64 x) }
    ensures { SplitOf (count binary64 x) result.digits result.size }
{
    let bits = x.to_bits();
    Parts {
        digits: bits % HIDDEN + HIDDEN,
        size: bits / HIDDEN + 52,
    }
}

// A subnormal number is scaled by 2^54 first, which is exact.
pub(crate) fn split(x: f64) -> Parts
    requires { T (positive x) }
    ensures { SplitOf (count binary64 x) result.digits result.size }
{
    if x < f64::MIN_POSITIVE {
        let s = split_normal(x * 18014398509481984.0);
        return Parts {
            digits: s.digits,
            size: s.size - 54,
        };
    }
    split_normal(x)
}
