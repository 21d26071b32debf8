// Reads the records that floatrun reads, eight words of eight bytes each, lowest first: the bits of k,
// alpha, eta and base, the bound, the bits of tau, q as two's complement, and the bits of beta. Writes
// a line for each, what `step_count` answers: `N` and the steps of the first plan; `C`, the steps
// needed and the budget left; or `R` and a refusal's number. A float is 16 upper-case hex digits. A
// record that ends inside itself is the last: `R 6`.
#![tactic(auto)]

use distances::step_count;
use harness::{ENTRY, Entry, PutLine, Sizes, entry_at, put, put_cap, put_number, put_refusal, run};
use vector::{FirstPlan, RunInput};

// A record has 64 bytes, 1,024 records are read at once, and a line has at most a letter, a float, five
// digits, a space before each and its end.
const SIZES: Sizes = Sizes {
    size: ENTRY,
    block: 65536,
    line: 25,
};

// `N` and a count.
fn put_steps(out: &mut [u8], start: usize, steps: u32) -> usize {
    let at = put(out, start, b"N");
    put_number(out, at, u64::from(steps))
}

fn put_plan(out: &mut [u8], at: usize, plan: FirstPlan) -> usize {
    match plan {
        FirstPlan::Steps(steps) => put_steps(out, at, steps),
        FirstPlan::OverCap(needed, budget) => put_cap(out, at, needed, budget),
        FirstPlan::Refused(refusal) => put_refusal(out, at, refusal.0),
    }
}

// The count of the record at a place.
fn count_at(s: &[u8], at: usize) -> FirstPlan {
    let Entry {
        k,
        alpha,
        eta,
        base,
        bound,
        tau,
        q,
        beta,
    } = entry_at(s, at);
    // here and in floatrun: harness stands on no crate that has `RunInput`
    let input = RunInput {
        alpha,
        beta,
        eta,
        bound,
        tau,
    };
    step_count(k, base, input, q)
}

// The line of the record at a place.
#[derive(Drop)]
struct Program;

impl PutLine for Program {
    ghost puts = { λ _ _ _ _ _ _ _ _. Unit {0} };

    fn put_line(&mut self, out: &mut [u8], used: usize, s: &[u8], at: usize) -> usize {
        let end = put_plan(out, used, count_at(s, at));
        put(out, end, b"\n")
    }
}

fn main() {
    run(SIZES, &mut Program);
}
