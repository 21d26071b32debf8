// The float entry's numbers, which floatrun and countrun read from a record of eight words of eight
// bytes: the bits of k, alpha, eta and base, the bound, the bits of tau, q as two's complement, and the
// bits of beta.
ghost use Rattle.std.specs.Prelude.{◌≡◌};
ghost use Rattle.harness.specs.Entries.{float_at, entry_at};

use crate::word::{bound_of, signed_of, word_at};
use elementary::float_of;

// The bytes of a record.
pub const ENTRY: usize = 64;

#[derive(Clone, Copy)]
pub struct Entry {
    pub k: f64,
    pub alpha: f64,
    pub eta: f64,
    pub base: f64,
    pub bound: u32,
    pub tau: f64,
    pub q: i64,
    pub beta: f64,
}

// The float of the word i places after a place.
fn float_at(s: &[u8], at: usize, i: usize) -> f64
    ensures { result ≡ float_at s.now at i }
{
    float_of(word_at(s, at, i))
}

// The numbers of the record at a place.
pub fn entry_at(s: &[u8], at: usize) -> Entry
    ensures { result ≡ entry_at s.now at }
{
    Entry {
        k: float_at(s, at, 0),
        alpha: float_at(s, at, 8),
        eta: float_at(s, at, 16),
        base: float_at(s, at, 24),
        bound: bound_of(word_at(s, at, 32)),
        tau: float_at(s, at, 40),
        q: signed_of(word_at(s, at, 48)),
        beta: float_at(s, at, 56),
    }
}
