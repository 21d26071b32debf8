// Elementary functions on f64, after document 01, module 1, and change request 2: a fixed order of operations, and
// one rounding for each.
#![tactic(auto)]

mod ceiling;
mod exponential;
mod ln2;
mod logarithm;
mod root;
mod split;

ghost use Rattle.std.specs.Prelude.{◌≡◌, from_bits, to_bits};
ghost use Rattle.std.specs.Float.{binary64};
ghost use Rattle.elementary.specs.Float.{finite, positive};
ghost use Rattle.elementary.specs.Elementary.{told, or_nan, LN, LN1P, EXP, SQRT, CEIL};

pub use split::HIDDEN;

// Why a call is refused: a number of document 01's, and no more. It is no enum of those numbers: callers
// hand any number to `Model::after`, `quotes_by` and the writers of lines, and each has its line.
#[derive(Clone, Copy, Debug, PartialEq, Eq, Hash)]
pub struct Refusal(pub u8);

// The refusal where an elementary function has no value, by which the layers above answer.
pub const OUTSIDE: Refusal = Refusal(5);

// The value of an elementary function, and a NaN where the argument is outside its domain.
pub fn or_nan(r: Option<f64>) -> f64
    ensures { result ≡ or_nan (told r) }
{
    r.unwrap_or(0.0 / 0.0)
}

// Whether x is neither a NaN nor an infinity.
pub fn is_finite(x: f64) -> bool
    ensures { result ≡ finite x }
{
    x.is_finite()
}

// Whether x is finite and above zero.
pub fn is_positive_finite(x: f64) -> bool
    ensures { result ≡ positive x }
{
    is_finite(x) & (0.0 < x)
}

// A float's bits. Those of a NaN are not determined, so one of them stands for all.
pub fn bits_of(x: f64) -> u64
    ensures { result ≡ to_bits binary64 x }
{
    std::num::f64_to_bits_with_nan(x)
}

// The float of any bits. All those of a NaN give the one NaN.
pub fn float_of(bits: u64) -> f64
    ensures { result ≡ from_bits binary64 bits }
{
    std::num::f64_from_bits_with_nan(bits)
}

// The natural logarithm of a positive finite number.
pub fn ln(x: f64) -> Option<f64>
    ensures { told result ≡ LN x }
{
    if is_positive_finite(x) {
        return Some(logarithm::ln_positive(x));
    }
    None
}

// The natural logarithm of 1 + r, for a positive finite r.
pub fn ln_1p(r: f64) -> Option<f64>
    ensures { told result ≡ LN1P r }
{
    if is_positive_finite(r) {
        if r < 0.5 {
            return Some(logarithm::ln_series(r / (2.0 + r)));
        }
        return ln(1.0 + r);
    }
    None
}

// The exponential of a finite number.
pub fn exp(x: f64) -> Option<f64>
    ensures { told result ≡ EXP x }
{
    if is_finite(x) {
        return Some(exponential::exp_finite(x));
    }
    None
}

// The square root, as IEEE 754 rounds it, of a finite number that is not negative. -0.0 is its own.
pub fn sqrt(x: f64) -> Option<f64>
    ensures { told result ≡ SQRT x }
{
    if x == 0.0 {
        return Some(x);
    }
    if is_positive_finite(x) {
        return Some(root::sqrt_positive(x));
    }
    None
}

// The least whole number that is not below x, for a finite x.
pub fn ceil(x: f64) -> Option<f64>
    ensures { told result ≡ CEIL x }
{
    if is_finite(x) {
        return Some(ceiling::ceil_finite(x));
    }
    None
}
