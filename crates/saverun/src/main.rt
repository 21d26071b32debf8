// Reads records from standard input, twelve words of eight bytes each, lowest first: mid, holding,
// volatility, risk aversion, k, A, bound, lot size, terminal, current, min spread, and the length of
// the buffer that `save_record` gets, 128 where it is more. An amount is a count of billionths in
// two's complement. Each byte of the buffer is hex A5 before the call. Writes a line for each: `W`,
// the count of bytes that the record takes, and all bytes of the buffer in upper-case hex; or `R`, a
// refusal's number and the buffer likewise. An empty buffer adds nothing. A bound that 32 bits do not
// hold is refused by 2, and a record that ends inside itself, the last, by 6, both without a call.
#![tactic(auto)]

ghost use Rattle.std.specs.Prelude.{◌≤◌};

use desk::amount_at;
use harness::{
    LARGEST_BOUND, PutLine, Sizes, bound_of, digit, put, put_number, put_refusal, run, word_at,
};
use quote::Refusal;
use quote::refusals::LIMITS;
use record::Record;

// A record has 96 bytes, 682 records are read at once, and a line has at most a letter, a number of two
// digits and 128 bytes, with a space before both, and its end.
const SIZES: Sizes = Sizes {
    size: 96,
    block: 65472,
    line: 262,
};

// The longest buffer.
const ROOM: usize = 128;

// What each byte of a buffer is before the call.
const BEFORE: u8 = 0xA5;

// A byte in two hex digits.
fn put_byte(out: &mut [u8], at: usize, b: u8) -> usize {
    let text = [digit(u64::from(b / 16)), digit(u64::from(b))];
    put(out, at, &text)
}

// A space and bytes in hex, or nothing where there are none.
fn put_bytes(out: &mut [u8], start: usize, s: &[u8]) -> usize {
    if s.is_empty() {
        return start;
    }
    let mut at = put(out, start, b" ");
    for b in s {
        at = put_byte(out, at, *b);
    }
    at
}

// `W` and the count of bytes.
fn put_saved(out: &mut [u8], start: usize, n: usize) -> usize {
    let at = put(out, start, b"W");
    put_number(out, at, n as u64)
}

fn put_answer(out: &mut [u8], start: usize, a: Result<usize, Refusal>) -> usize {
    match a {
        Ok(n) => put_saved(out, start, n),
        Err(refusal) => put_refusal(out, start, refusal.0),
    }
}

// The record at a place.
fn record_at(s: &[u8], at: usize) -> Record {
    Record {
        mid_price: amount_at(s, at, 0),
        inventory: amount_at(s, at, 8),
        volatility: amount_at(s, at, 16),
        risk_aversion: amount_at(s, at, 24),
        order_intensity_k: amount_at(s, at, 32),
        intensity_scale_a: amount_at(s, at, 40),
        max_inventory_lots: bound_of(word_at(s, at, 48)),
        lot_size: amount_at(s, at, 56),
        terminal_time: word_at(s, at, 64),
        current_time: word_at(s, at, 72),
        min_spread: amount_at(s, at, 80),
    }
}

// The length of the buffer for the record at a place.
fn length_at(s: &[u8], at: usize) -> usize
    ensures { result ≤ 128 }
{
    word_at(s, at, 88).min(ROOM as u64) as usize
}

// What saving a record answers, and the buffer after it.
fn put_call(out: &mut [u8], start: usize, r: Record, buffer: &mut [u8]) -> usize {
    let a = record::save_record(r, buffer);
    let at = put_answer(out, start, a);
    put_bytes(out, at, buffer)
}

// The record at a place, without its line's end.
fn put_record(out: &mut [u8], start: usize, s: &[u8], at: usize) -> usize {
    if word_at(s, at, 48) > LARGEST_BOUND {
        return put_refusal(out, start, LIMITS.0);
    }
    let n = length_at(s, at);
    let mut buffer = [BEFORE; ROOM];
    put_call(out, start, record_at(s, at), &mut buffer[..n])
}

// The line of the record at a place.
#[derive(Drop)]
struct Program;

impl PutLine for Program {
    ghost puts = { λ _ _ _ _ _ _ _ _. Unit {0} };

    fn put_line(&mut self, out: &mut [u8], used: usize, s: &[u8], at: usize) -> usize {
        let end = put_record(out, used, s, at);
        put(out, end, b"\n")
    }
}

fn main() {
    run(SIZES, &mut Program);
}
