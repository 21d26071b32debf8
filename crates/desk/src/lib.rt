// What several test programs share of a desk: the line of an exact call, and the record of thirteen
// words of eight bytes: mid, holding, volatility, risk aversion, k, A, bound, lot size, terminal,
// current, min spread, one more, and the drift. An amount is a count of billionths in two's complement.
#![tactic(auto)]

mod line;

ghost use Rattle.std.specs.Prelude.{◌≡◌, ◌+◌};
ghost use Rattle.harness.specs.Words.{word, signed};
ghost use Rattle.desk.specs.Desk.{config_at};

use harness::{bound_of, signed_of, word_at};
pub use line::{put_exact, put_float, put_quotes};
use model::GLFTConfig;

// The amount i places after a place.
pub fn amount_at(s: &[u8], at: usize, i: usize) -> i64
    ensures { result ≡ signed (word s.now (at + i)) }
{
    signed_of(word_at(s, at, i))
}

// The configuration of the record at a place.
pub fn config_at(s: &[u8], at: usize) -> GLFTConfig
    ensures { result ≡ config_at s.now at }
{
    GLFTConfig {
        risk_aversion: amount_at(s, at, 24),
        order_intensity_k: amount_at(s, at, 32),
        intensity_scale_a: amount_at(s, at, 40),
        max_inventory_lots: bound_of(word_at(s, at, 48)),
        lot_size: amount_at(s, at, 56),
        terminal_time: word_at(s, at, 64),
        min_spread: amount_at(s, at, 80),
        drift: amount_at(s, at, 96),
    }
}
