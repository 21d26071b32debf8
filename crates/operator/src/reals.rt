// Single floats: the magnitude of one, and the factor that two offsets make.
ghost use Rattle.std.specs.Prelude.{◌≡◌};
ghost use Rattle.elementary.specs.Float.{◌⊖◌};
ghost use Rattle.elementary.specs.Elementary.{EXP, or_nan};
ghost use Rattle.operator.specs.Vectors.{abs};

// The library's `abs` would make -0.0 a 0.0, which `Vectors.abs` does not.
pub fn magnitude(x: f64) -> f64
    ensures { result ≡ abs x }
{
    if x < 0.0 { -x } else { x }
}

// A row's factor for a neighbour, by their offsets; a NaN where EXP has no value, which what reads it tests for
// later. Where the offsets are equal, as all are before the first
// rebalancing, EXP of their difference is 1.0, and none is made. The difference is tested and not the
// offsets: two equal infinities make a NaN.
pub(crate) fn factor(neighbour: f64, own: f64) -> f64
    ensures { result ≡ or_nan (EXP (neighbour ⊖ own)) }
{
    let d = neighbour - own;
    if d == 0.0 {
        return 1.0;
    }
    elementary::or_nan(elementary::exp(d))
}
