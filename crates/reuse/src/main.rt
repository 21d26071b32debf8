// Makes calls in a loop, for bench/table.py to time. Reads orders from standard input, a line each: a
// letter, the kind of call, and how many calls in decimal. Each order gets a cleared table. Writes a line
// for each: the sum of what the calls answer, modulo 2^64, and then the count of filled rows and the next
// row, as they are after the calls. An answer counts as its bid, twice its ask and its steps.
//
// The desk has a bound of 200 lots. From call to call the holding goes up by a lot, from -200 to 200 and
// again from -200. The amounts go up by a billionth, in turns of four or five calls, so that no call can
// use what the one before it calculated. A table has four rows: four desks in turn find their row, and five
// never do. The kinds:
//
// - r quotes from the table: four desks, two seconds before the end. All but the first four calls are
//   reuses.
// - e makes the same calls without the table.
// - m quotes from the table: five desks, no time left. Every call makes a vector and keeps it.
// - z makes the same calls without the table.
// - c sets a number of the table to 1 and clears the table. The answer is the number, 0.
// - n, or any other letter, makes no call. The answer is the holding without its sign.
#![tactic(auto)]

use amounts::{BILLION, size_of};
use harness::signed_of;
use quote::{ExactQuotes, GLFTConfig, GLFTStrategy, Price};
use std::num::{wrapping_add_u64, wrapping_sub_u64};
use table::places::{FILLED, NEXT};
use table::{TABLE_ROOM, clear_table, table_quotes};

// Times.
const TERMINAL: u64 = 600000;

const TWO_SECONDS_BEFORE: u64 = 598000;

// Desks in turn: as many as a table has rows, and one more.
const FOUR: u64 = 4;

const FIVE: u64 = 5;

// Kinds of calls.
#[derive(Clone, Copy)]
enum Kind {
    Reuse,
    Run,
    Miss,
    NoTime,
    Clear,
    Nothing,
}

impl From<u8> for Kind {
    fn from(letter: u8) -> Kind {
        match letter {
            b'r' => Kind::Reuse,
            b'e' => Kind::Run,
            b'm' => Kind::Miss,
            b'z' => Kind::NoTime,
            b'c' => Kind::Clear,
            _ => Kind::Nothing,
        }
    }
}

// An amount of the desk that has a turn.
fn amount(billionths: u64, turn: u64) -> i64 {
    signed_of(wrapping_add_u64(billionths, turn))
}

fn mid(turn: u64) -> i64 {
    amount(1000 * BILLION, turn)
}

fn volatility(turn: u64) -> i64 {
    amount(BILLION * 16847 / 10, turn)
}

fn desk(turn: u64) -> GLFTConfig {
    GLFTConfig {
        risk_aversion: amount(BILLION / 100, turn),
        order_intensity_k: amount(BILLION * 3 / 10, turn),
        intensity_scale_a: amount(BILLION * 9 / 10, turn),
        max_inventory_lots: 200,
        lot_size: 1000000000,
        terminal_time: TERMINAL,
        min_spread: 0,
        drift: 0,
    }
}

// The holding of call i.
fn holding(i: u64) -> i64 {
    signed_of(wrapping_sub_u64(i % 401 * BILLION, 200 * BILLION))
}

// A price, 0 where there is none.
fn price(p: Price) -> u64 {
    match p {
        Some(billionths) => size_of(billionths),
        None => 0,
    }
}

// What an answer counts as.
fn told(answer: ExactQuotes) -> u64 {
    match answer {
        ExactQuotes::Quotes(quotes, steps) => {
            let bid = quotes.bid;
            let ask = quotes.ask;
            let twice = price(ask).wrapping_mul(2);
            price(bid)
                .wrapping_add(twice)
                .wrapping_add(u64::from(steps))
        }
        ExactQuotes::OverStepCap(_, budget, _) => budget as u64,
        ExactQuotes::Refused(refusal) => refusal.0 as u64,
    }
}

// Call i with the table.
fn from_table(table: &mut [u64], i: u64, turn: u64, current: u64) -> u64 {
    told(table_quotes(
        table,
        mid(turn),
        holding(i),
        desk(turn),
        volatility(turn),
        current,
    ))
}

// The same without it.
fn alone(i: u64, turn: u64, current: u64) -> u64 {
    told(GLFTStrategy::exact_quotes(mid(turn), holding(i), desk(turn), volatility(turn), current))
}

// A number of the table.
fn number_at(table: &[u64], at: usize) -> u64 {
    table.get(at).copied().unwrap_or(0)
}

// Sets it to 1.
fn set(table: &mut [u64], at: usize) {
    if let Some(number) = table.get_mut(at) {
        *number = 1;
    }
}

// Sets a number of the table, clears the table, and answers the number.
fn set_and_clear(table: &mut [u64], at: usize) -> u64 {
    set(table, at);
    let _ = clear_table(table);
    number_at(table, at)
}

// What call i of a kind counts as.
fn call(table: &mut [u64], kind: Kind, i: u64) -> u64 {
    match kind {
        Kind::Reuse => from_table(table, i, i % FOUR, TWO_SECONDS_BEFORE),
        Kind::Run => alone(i, i % FOUR, TWO_SECONDS_BEFORE),
        Kind::Miss => from_table(table, i, i % FIVE, TERMINAL),
        Kind::NoTime => alone(i, i % FIVE, TERMINAL),
        Kind::Clear => set_and_clear(table, (i % 4096) as usize),
        Kind::Nothing => size_of(holding(i)),
    }
}

// The sum of as many calls.
fn calls(table: &mut [u64], kind: Kind, count: u64) -> u64 {
    let mut sum: u64 = 0;
    for i in 0..count {
        sum = wrapping_add_u64(sum, call(table, kind, i));
    }
    sum
}

fn print(text: &[u8]) {
    io::write_all(harness::STDOUT, text);
}

// An order and its line.
fn order(kind: Kind, count: u64) {
    let mut room = [0u64; TABLE_ROOM];
    let table: &mut [u64] = &mut room;
    let _ = clear_table(table);
    io::print_decimal(harness::STDOUT, calls(table, kind, count));
    print(b" ");
    io::print_decimal(harness::STDOUT, number_at(table, FILLED));
    print(b" ");
    io::print_decimal(harness::STDOUT, number_at(table, NEXT));
    print(b"\n");
}

// A count with one more digit; other bytes leave it.
fn with_digit(count: u64, byte: u8) -> u64 {
    if byte.is_ascii_digit() {
        return count % 100000000 * 10 + u64::from(byte - b'0');
    }
    count
}

// Every order of the input.
fn orders(s: &[u8]) {
    let mut kind = Kind::Nothing;
    let mut count: u64 = 0;
    for &byte in s {
        if byte == b'\n' {
            order(kind, count);
        }
        if byte >= b'a' {
            kind = Kind::from(byte);
            count = 0;
        }
        count = with_digit(count, byte);
    }
}

fn main() {
    let mut buf = io::buffer();
    let n = io::read_full(harness::STDIN, &mut buf);
    orders(&buf[..n]);
}
