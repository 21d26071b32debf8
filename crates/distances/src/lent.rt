// A value vector whose arrays are lent, as floats or by their bits, and the distances at one place of it.
ghost use Rattle.std.specs.Prelude.{◌≡◌, map, suc, ◌<◌, ltb, Float};
ghost use Rattle.elementary.specs.Float.{hex};
ghost use Rattle.operator.specs.Vectors.{at};
ghost use Rattle.distances.specs.Distances.{lent, distance, bid_at, ask_at, exact_at};

use crate::places::Scale;
use crate::{Distance, Sides};

// A number of a lent array: a float, or a float's bits.
pub(crate) trait Number: Copy {
    ghost float: { Self → Float };

    fn float(self) -> f64
        ensures { result ≡ float self };
}

impl Number for f64 {
    ghost float = { λ x. x };

    fn float(self) -> f64 {
        self
    }
}

impl Number for u64 {
    ghost float = { λ b. hex b };

    fn float(self) -> f64 {
        elementary::float_of(self)
    }
}

// The n weights and offsets of a vector. By value, each call on the way would copy them.
#[derive(Clone, Copy)]
pub(crate) struct Lent<'a, T> {
    pub(crate) w: &'a [T],
    pub(crate) log_offset: &'a [T],
    pub(crate) n: usize,
}

// The float of entry i; a NaN past the end.
fn float_at<T: Number>(s: &[T], i: usize) -> f64
    ensures { result ≡ at (map T.float s.now) i }
{
    if i < s.len() {
        return s[i].float();
    }
    0.0 / 0.0
}

// The distance from entry i to entry j.
fn distance_at<T: Number>(v: Lent<'_, T>, scale: Scale, i: usize, j: usize) -> f64
    ensures { result ≡ distance (lent v.entry.n (map T.float v.entry.w.now) (map T.float v.entry.log_offset.now)) scale.k scale.base i j }
{
    crate::places::distance_between(
        float_at(v.w, i),
        float_at(v.log_offset, i),
        float_at(v.w, j),
        float_at(v.log_offset, j),
        scale,
    )
}

// The bid's distance at place i, one place up; one function for both sides would take each side's test.
fn bid_at<T: Number>(v: Lent<'_, T>, scale: Scale, i: usize) -> Distance
    requires { i < v.n }
    ensures { result ≡ bid_at (ltb (suc i) v.entry.n) (lent v.entry.n (map T.float v.entry.w.now) (map T.float v.entry.log_offset.now)) scale.k scale.base i }
{
    let up = i + 1;
    if up < v.n {
        return Some(distance_at(v, scale, i, up));
    }
    None
}

// The ask's distance at place i, one place down.
fn ask_at<T: Number>(v: Lent<'_, T>, scale: Scale, i: usize) -> Distance
    ensures { result ≡ ask_at (lent v.entry.n (map T.float v.entry.w.now) (map T.float v.entry.log_offset.now)) scale.k scale.base i }
{
    if 0 < i {
        let down = i - 1;
        return Some(distance_at(v, scale, i, down));
    }
    None
}

// The distances at place i. The arrays come one by one: a call that takes them in a struct keeps a copy of the vector
// that no one reads.
pub(crate) fn sides_at<'a, T: Number>(
    w: &'a [T],
    log_offset: &'a [T],
    n: usize,
    scale: Scale,
    i: usize,
) -> Sides
    requires { i < n }
    ensures { result ≡ exact_at (lent n (map T.float w.now) (map T.float log_offset.now)) scale.k scale.base i }
{
    let v = Lent { w, log_offset, n };
    crate::places::both(bid_at(v, scale, i), ask_at(v, scale, i))
}
