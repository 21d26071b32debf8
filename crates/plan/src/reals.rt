// Single floats: the larger of two.
ghost use Rattle.std.specs.Prelude.{◌≡◌};
ghost use Rattle.operator.specs.Vectors.{larger};

// The library's `max` would give y where x is a NaN, which `Vectors.larger` does not.
pub fn larger_of(x: f64, y: f64) -> f64
    ensures { result ≡ larger x y }
{
    if x < y { y } else { x }
}
