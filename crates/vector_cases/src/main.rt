// Document 01's cases of the value vector that are not proved as a table: each is run, and a line
// says what came out.
#![tactic(auto)]

use harness::{bits_of, first, put, put_number};
use vector::{Outcome, RunInput};

// A space and a float's 16 hex digits, in lower case, as in desk, on which this crate does not stand.
fn put_float(out: &mut [u8], at: usize, x: f64) -> usize {
    let mut text = [0u8; 16];
    let k = io::hex(bits_of(x), 16, &mut text);
    let next = put(out, at, b" ");
    put(out, next, &text[..k])
}

// `over the cap`, the steps needed, the budget left and the steps spent.
fn put_cap(out: &mut [u8], start: usize, need: f64, budget: u32, steps: u32) -> usize {
    let mut at = put(out, start, b"over the cap");
    at = put_float(out, at, need);
    at = put_number(out, at, budget as u64);
    put_number(out, at, steps as u64)
}

// How a run ends: the steps, or the report, or the refusal.
fn put_outcome(out: &mut [u8], start: usize, outcome: Outcome) -> usize {
    match outcome {
        Outcome::Done(steps) => {
            let at = put(out, start, b"done");
            put_number(out, at, steps as u64)
        }
        Outcome::OverCap(need, budget, steps) => put_cap(out, start, need, budget, steps),
        Outcome::Refused(refusal) => {
            let at = put(out, start, b"refused");
            put_number(out, at, refusal.0 as u64)
        }
    }
}

fn put_run(out: &mut [u8], start: usize, alpha: f64, eta: f64, bound: u32, tau: f64) -> usize {
    let a = vector::value_vector(RunInput {
        alpha,
        beta: 0.0,
        eta,
        bound,
        tau,
    });
    let outcome = a.outcome;
    let at = put_outcome(out, start, outcome);
    put(out, at, b"\n")
}

fn put_floor(out: &mut [u8], at: usize, smallest: f64, steps: u32) -> usize {
    if vector::must_rebalance(smallest, steps) {
        return put(out, at, b"rebalanced\n");
    }
    put(out, at, b"not rebalanced\n")
}

fn main() {
    let mut out = io::buffer();
    let mut at: usize = 0;
    at = put(&mut out, at, b"tau 5500: ");
    at = put_run(&mut out, at, 1.0, 1.0, 1, 5500.0);
    at = put(&mut out, at, b"tau 5500.5: ");
    at = put_run(&mut out, at, 1.0, 1.0, 1, 5500.5);
    at = put(&mut out, at, b"alpha and tau 10^300: ");
    at = put_run(&mut out, at, 1e300, 1.0, 1, 1e300);
    at = put(&mut out, at, b"the smallest weight exactly 1e-200: ");
    at = put_floor(&mut out, at, 1e-200, 1);
    at = put(&mut out, at, b"the next float below it: ");
    at = put_floor(&mut out, at, 9.999999999999998e-201, 1);
    at = put(&mut out, at, b"below it after the last step: ");
    at = put_floor(&mut out, at, 9.999999999999998e-201, 0);
    io::write_all(harness::STDOUT, first(&out, at));
}
