// Reads records from standard input, thirteen words of eight bytes each, lowest first: mid, holding,
// which is left aside, volatility, risk aversion, k, A, bound, lot size, terminal, current, min
// spread, the length of the buffer that `write_ladder` gets, 32,768 where it is more, and the drift. An
// amount is a count of billionths in two's complement. Each byte of the buffer is hex A5 before the
// call. Writes for each a line `L` and the count of bytes that the ladder takes, and the ladder; or a
// line `R` and a refusal's number. Then a line `U` where every byte of the buffer after the ladder is
// still hex A5, or else `X`; after a refusal, every byte of it. A bound that 32 bits do not hold is
// refused by 2, and a record that ends inside itself, the last, by 6, both without a call and followed
// by `U`.
#![tactic(auto)]

ghost use Rattle.std.specs.Prelude.{◌≤◌};

use desk::{amount_at, config_at};
use harness::{
    LARGEST_BOUND, PutCut, PutLine, Sizes, first, make_room, put, put_number, put_refusal,
    run_to_cut, word_at,
};
use quote::Refusal;
use quote::refusals::LIMITS;
use record::refusals::CUT_SHORT;

// A record has 104 bytes, 630 records are read at once, and an answer has at most a letter, a space, a count
// of five digits and the line's end; a ladder; and a letter with the line's end.
const SIZES: Sizes = Sizes {
    size: 104,
    block: 65520,
    line: ladders::MOST_LADDER + 10,
};

// The longest buffer.
const ROOM: usize = 32768;

// What each byte of a buffer is before the call.
const BEFORE: u8 = 0xA5;

// The line of a refusal.
fn put_refused(out: &mut [u8], start: usize, refusal: Refusal) -> usize {
    let end = put_refusal(out, start, refusal.0);
    put(out, end, b"\n")
}

// `L` and the count of bytes, and the ladder, which is at the start of the buffer.
fn put_written(out: &mut [u8], start: usize, buffer: &[u8], n: usize) -> usize {
    let at = put(out, start, b"L");
    let end = put_number(out, at, n as u64);
    let next = put(out, end, b"\n");
    put(out, next, first(buffer, n))
}

// Are the bytes of a buffer from a place on as they were before the call?
fn untouched(buffer: &[u8], from: usize) -> bool {
    buffer.iter().skip(from).all(|b| *b == BEFORE)
}

// `U` where the bytes of a buffer from a place on are as they were, or `X`.
fn put_rest(out: &mut [u8], at: usize, buffer: &[u8], from: usize) -> usize {
    if untouched(buffer, from) {
        return put(out, at, b"U\n");
    }
    put(out, at, b"X\n")
}

// An answer, and what the call left of the buffer.
fn put_answer(out: &mut [u8], start: usize, a: Result<usize, Refusal>, buffer: &[u8]) -> usize {
    match a {
        Ok(n) => {
            let at = put_written(out, start, buffer, n);
            put_rest(out, at, buffer, n)
        }
        Err(refusal) => {
            let at = put_refused(out, start, refusal);
            put_rest(out, at, buffer, 0)
        }
    }
}

// A refusal without a call.
fn put_unasked(out: &mut [u8], start: usize, refusal: Refusal) -> usize {
    let at = put_refused(out, start, refusal);
    put(out, at, b"U\n")
}

// The length of the buffer for the record at a place.
fn length_at(s: &[u8], at: usize) -> usize
    ensures { result ≤ 32768 }
{
    word_at(s, at, 88).min(ROOM as u64) as usize
}

// What the ladder of the record at a place answers, and what it leaves in a buffer.
fn put_call(out: &mut [u8], start: usize, s: &[u8], at: usize, buffer: &mut [u8]) -> usize {
    let mid = amount_at(s, at, 0);
    let volatility = amount_at(s, at, 16);
    let a = ladders::write_ladder(
        mid,
        config_at(s, at),
        volatility,
        word_at(s, at, 72),
        buffer,
    );
    put_answer(out, start, a, buffer)
}

// The answer to the record at a place, and after the answers that to a record that ends inside itself, if any of its
// bytes are left.
#[derive(Drop)]
struct Program;

impl PutLine for Program {
    ghost puts = { λ _ _ _ _ _ _ _ _. Unit {0} };

    fn put_line(&mut self, out: &mut [u8], used: usize, s: &[u8], at: usize) -> usize {
        if word_at(s, at, 48) > LARGEST_BOUND {
            return put_unasked(out, used, LIMITS);
        }
        let n = length_at(s, at);
        let mut buffer = [BEFORE; ROOM];
        put_call(out, used, s, at, &mut buffer[..n])
    }
}

impl PutCut for Program {
    fn put_cut(&self, out: &mut [u8], used: usize, left: usize) -> usize {
        if left == 0 {
            return used;
        }
        let start = make_room(out, used, SIZES.line);
        put_unasked(out, start, CUT_SHORT)
    }
}

fn main() {
    run_to_cut(SIZES, &mut Program, &Program);
}
