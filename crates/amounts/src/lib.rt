// Amounts, which are signed counts of billionths, and times, which are counts of milliseconds: their
// limits, both as floats, and a float as an amount.
#![tactic(auto)]

pub mod refusals;
mod rounding;

ghost use Rattle.std.specs.Prelude.{◌≡◌, unsigned_abs};
ghost use Rattle.amounts.specs.Amounts.{amount_ok, time_ok, above0, to_float, tau_of};

pub use rounding::to_billionths;

// The billionths of a unit.
pub const BILLION: u64 = 1000000000;

// The largest amount in magnitude.
pub const MAX_AMOUNT: i64 = 9000000000000000;

// The latest time.
pub const MAX_TIME: u64 = 9000000000000000;

const PER_UNIT: f64 = 1000000000.0;

const MILLISECONDS_PER_SECOND: f64 = 1000.0;

// Whether an amount is within the limit.
pub fn amount_fits(x: i64) -> bool
    ensures { result ≡ amount_ok x }
{
    x.unsigned_abs() <= MAX_AMOUNT.unsigned_abs()
}

// Whether a time is within the limit.
pub fn time_fits(t: u64) -> bool
    ensures { result ≡ time_ok t }
{
    t <= MAX_TIME
}

pub fn is_positive(x: i64) -> bool
    ensures { result ≡ above0 x }
{
    x.is_positive()
}

// An amount without its sign.
pub fn size_of(x: i64) -> u64
    ensures { result ≡ unsigned_abs x }
{
    x.unsigned_abs()
}

// An amount as a float.
pub fn to_f64(x: i64) -> f64
    ensures { result ≡ to_float x }
{
    std::num::nearest_i64_to_f64(x) / PER_UNIT
}

// The seconds to the end, zero after it.
pub fn seconds_to_terminal(terminal: u64, current: u64) -> f64
    ensures { result ≡ tau_of terminal current }
{
    std::num::nearest_u64_to_f64(terminal.saturating_sub(current)) / MILLISECONDS_PER_SECOND
}
