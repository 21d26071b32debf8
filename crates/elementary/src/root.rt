// The square root, a binary digit at a time.
ghost use Rattle.std.specs.Prelude.{◌≡◌, ◌+◌, ◌*◌, ◌^◌, ◌<◌, ◌≤◌, T};
ghost use Rattle.std.specs.Float.{binary64};
ghost use Rattle.elementary.specs.Float.{positive, count};
ghost use Rattle.elementary.specs.Elementary.{sqrt_of};
ghost use Rattle.elementary.specs.Inner.{RootOf};

// The root's digits so far, and what their square leaves of the number's.
#[derive(Clone, Copy)]
struct Digits {
    root: u64,
    rest: u64,
}

// One more binary digit of the root, from the number's next two.
fn next_digit(d: Digits, pair: u64) -> Digits
    requires { (d.root < 2 ^ 53) × (d.rest ≤ 2 * d.root) × (pair < 4) }
    ensures root_of { RootOf (4 * (d.root * d.root + d.rest) + pair) result.root result.rest }
    ensures root_bound { result.root ≤ 2 * d.root + 1 }
{
    let rest = d.rest * 4 + pair;
    let trial = d.root * 4 + 1;
    if trial <= rest {
        return Digits {
            root: d.root * 2 + 1,
            rest: rest - trial,
        };
    }
    Digits {
        root: d.root * 2,
        rest,
    }
}

// The whole part of the root of m * 2^54, and what its square leaves.
fn whole_root(m: u64) -> Digits
    requires { m < 2 ^ 54 }
    ensures { RootOf (m * 2 ^ 54) result.root result.rest }
{
    let mut d = Digits { root: 0, rest: 0 };
    let mut left = m;
    for _ in 0..54u32 {
        d = next_digit(d, left / crate::split::HIDDEN);
        left = left % crate::split::HIDDEN * 4;
    }
    d
}

// The square root of a positive finite number. It is never halfway between two floats, so half of
// its 54 leading digits goes up where they are odd.
pub(crate) fn sqrt_positive(x: f64) -> f64
    requires { T (positive x) }
    ensures { result ≡ sqrt_of (count binary64 x) }
{
    let s = crate::split::split(x);
    let even = (s.size + 1) % 2;
    let d = whole_root(s.digits * (1 + even));
    let nearest = (d.root + 1) / 2;
    f64::from_bits((s.size + 969) / 2 * crate::split::HIDDEN + nearest)
}
