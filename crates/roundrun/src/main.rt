// Reads float patterns from standard input, eight bytes each, lowest first, and writes a line for
// each, what `to_billionths` answers to the float: a count of billionths in decimal, with a minus sign
// where it is negative, or `R` and a refusal's number. A pattern that ends inside itself is the last:
// `R 6`.
#![tactic(auto)]

use harness::{PutLine, Sizes, float_of, put, put_refusal, put_signed, run, word_at};
use quote::{Refusal, to_billionths};

// A pattern has 8 bytes, 8,192 are read at once, and a line has at most a sign, 16 digits and its end.
const SIZES: Sizes = Sizes {
    size: 8,
    block: 65536,
    line: 18,
};

// A count, or a refusal.
fn put_billionths(out: &mut [u8], at: usize, b: Result<i64, Refusal>) -> usize {
    match b {
        Ok(n) => put_signed(out, at, n),
        Err(refusal) => put_refusal(out, at, refusal.0),
    }
}

// The line of the pattern at a place.
#[derive(Drop)]
struct Program;

impl PutLine for Program {
    ghost puts = { λ _ _ _ _ _ _ _ _. Unit {0} };

    fn put_line(&mut self, out: &mut [u8], used: usize, s: &[u8], at: usize) -> usize {
        let x = float_of(word_at(s, at, 0));
        let end = put_billionths(out, used, to_billionths(x));
        put(out, end, b"\n")
    }
}

fn main() {
    run(SIZES, &mut Program);
}
