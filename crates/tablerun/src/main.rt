// Reads records from standard input, thirteen words of eight bytes each, lowest first: mid, holding,
// volatility, risk aversion, k, A, bound, lot size, terminal, current, min spread, the kind of call and
// the drift. An amount is a count of billionths in two's complement. One table goes through all records:
// at first 4,096 of the 4,200 numbers that there is room for, each of which is hex A5A5A5A5A5A5A5A5.
// Writes a line for each record, by its kind:
//
// - 0 clears the table: `Z` where every number of it is 0 then, or else `X`; or `R` and a refusal's
//   number.
// - 1 quotes from it: `Q`, bid and ask in billionths (`-` if absent) and the steps; `C`, the steps
//   needed as a float's 16 hex digits, the budget left and the steps spent; or `R` and a refusal's
//   number. Then the count of filled rows and the next row, as they are after the call, or `- -` for a
//   table of fewer than 4,096 numbers; and `S` where no number of the table changed, or else `W`. A
//   bound that 32 bits do not hold is refused by 2 without a call, and nothing follows.
// - 2 sets the number with a role, the first word, to the fourth word: 0 is the count of filled rows, 1
//   the next row, 2 the steps, 3 the length, 4 the bound, 5 alpha, 6 beta, 7 eta, 8 tau, 9 a weight and
//   10 an offset. From 2 on the second word is the row, 0 to 3, and from 9 on the third the place, 0 to
//   400. Where there is no such number, or the table has fewer than 4,096, nothing is set. Writes `P`.
// - 3 gives the table as many numbers as the first word says, or 4,200 where it is more. They keep what
//   they hold. Writes `P`, and so does any other kind, which does nothing.
//
// A record that ends inside itself, the last, is refused by 6.
#![tactic(auto)]

mod numbers;
mod setting;

use desk::{amount_at, config_at, put_exact};
use harness::{LARGEST_BOUND, PutLine, Sizes, put, put_number, put_refusal, run, word_at};
use numbers::{are_same, copy};
use quote::ExactQuotes;
use quote::refusals::LIMITS;
use setting::set_number;
use table::places::{FILLED, NEXT};
use table::{TABLE_ROOM, clear_table, table_quotes};

// A record has 104 bytes, 630 records are read at once, and a line has at most a letter, two prices of 19
// digits, the steps of 10, two numbers of 20, each after a space, a space, a letter and its end.
const SIZES: Sizes = Sizes {
    size: 104,
    block: 65520,
    line: 97,
};

// The most numbers of a table.
const ROOM: usize = 4200;

// What each of them is at first.
const UNSET: u64 = 0xA5A5A5A5A5A5A5A5;

// Kinds of calls.
#[derive(Clone, Copy)]
enum Call {
    Clear,
    Quote,
    Set,
    Lend,
    Nothing,
}

impl From<u64> for Call {
    fn from(kind: u64) -> Call {
        match kind {
            0 => Call::Clear,
            1 => Call::Quote,
            2 => Call::Set,
            3 => Call::Lend,
            _ => Call::Nothing,
        }
    }
}

// The call of the record at a place.
fn call_at(s: &[u8], at: usize) -> Call {
    Call::from(word_at(s, at, 88))
}

// `Z` where every number of the table is 0, or `X`.
fn put_zeros(out: &mut [u8], at: usize, table: &[u64]) -> usize {
    let zeros = [0u64; ROOM];
    if are_same(table, &zeros) {
        return put(out, at, b"Z");
    }
    put(out, at, b"X")
}

// Clears the table.
fn put_cleared(out: &mut [u8], at: usize, table: &mut [u64]) -> usize {
    match clear_table(table) {
        Ok(()) => put_zeros(out, at, table),
        Err(refusal) => put_refusal(out, at, refusal.0),
    }
}

// The count of filled rows and the next row, with a space before each.
fn put_rows(out: &mut [u8], at: usize, table: &[u64]) -> usize {
    if table.len() < TABLE_ROOM {
        return put(out, at, b" - -");
    }
    let next = put_number(out, at, table[FILLED]);
    put_number(out, next, table[NEXT])
}

// A space and `S` where the table's numbers are what they were, or `W`.
fn put_change(out: &mut [u8], at: usize, table: &[u64], before: &[u64]) -> usize {
    if are_same(table, before) {
        return put(out, at, b" S");
    }
    put(out, at, b" W")
}

// What the table answers to the record at a place.
fn quotes_at(table: &mut [u64], s: &[u8], at: usize) -> ExactQuotes {
    let mid = amount_at(s, at, 0);
    let holding = amount_at(s, at, 8);
    let volatility = amount_at(s, at, 16);
    let c = config_at(s, at);
    let current = word_at(s, at, 72);
    table_quotes(table, mid, holding, c, volatility, current)
}

// Quotes from the table.
fn put_quoted(out: &mut [u8], start: usize, s: &[u8], at: usize, table: &mut [u64]) -> usize {
    let mut before = [0u64; ROOM];
    copy(&mut before, table);
    let a = quotes_at(table, s, at);
    let end = put_exact(out, start, a);
    let next = put_rows(out, end, table);
    put_change(out, next, table, &before)
}

// Quotes, or refuses a bound that 32 bits do not hold.
fn put_call(out: &mut [u8], start: usize, s: &[u8], at: usize, table: &mut [u64]) -> usize {
    if word_at(s, at, 48) > LARGEST_BOUND {
        return put_refusal(out, start, LIMITS.0);
    }
    put_quoted(out, start, s, at, table)
}

// Sets a number of the table.
fn put_set(out: &mut [u8], start: usize, s: &[u8], at: usize, table: &mut [u64]) -> usize {
    let role = word_at(s, at, 0);
    let row = word_at(s, at, 8);
    let place = word_at(s, at, 16);
    set_number(table, role, row, place, word_at(s, at, 24));
    put(out, start, b"P")
}

// The record at a place, without its line's end.
fn put_record(out: &mut [u8], start: usize, s: &[u8], at: usize, table: &mut [u64]) -> usize {
    match call_at(s, at) {
        Call::Clear => put_cleared(out, start, table),
        Call::Quote => put_call(out, start, s, at, table),
        Call::Set => put_set(out, start, s, at, table),
        Call::Lend | Call::Nothing => put(out, start, b"P"),
    }
}

// The line of the record at a place. The table is the first of the numbers, as many as are lent.
fn put_line(
    out: &mut [u8],
    start: usize,
    s: &[u8],
    at: usize,
    numbers: &mut [u64],
    lent: usize,
) -> usize {
    let n = lent.min(numbers.len());
    let end = put_record(out, start, s, at, &mut numbers[..n]);
    put(out, end, b"\n")
}

// How many numbers the calls after the record at a place get.
fn lent_after(s: &[u8], at: usize, lent: usize) -> usize {
    match call_at(s, at) {
        Call::Lend => word_at(s, at, 0) as usize,
        _ => lent,
    }
}

// What the run of records calls: the table, and how many of its numbers are lent.
#[derive(Drop)]
struct Program<'a> {
    numbers: &'a mut [u64],
    lent: usize,
}

impl<'a> PutLine for Program<'a> {
    ghost puts = { λ _ _ _ _ _ _ _ _. Unit {0} };

    fn put_line(&mut self, out: &mut [u8], used: usize, s: &[u8], at: usize) -> usize {
        let end = put_line(out, used, s, at, self.numbers, self.lent);
        self.lent = lent_after(s, at, self.lent);
        end
    }
}

fn main() {
    let mut room = [UNSET; ROOM];
    let mut program = Program {
        numbers: &mut room,
        lent: TABLE_ROOM,
    };
    run(SIZES, &mut program);
}
