// Reads records from standard input, eight words of eight bytes each, lowest first: the bits of k,
// alpha, eta and base, the bound, the bits of tau, q as two's complement, and the bits of beta. Writes
// a line for each, the float entry's answer: `V`, the steps, bid and ask (`-` if absent), n, the n
// weights and the n offsets; `C`, the steps needed and the budget left; or `R` and a refusal's number.
// A float is 16 upper-case hex digits. A record that ends inside itself is the last: `R 6`.
#![tactic(auto)]

use distances::{Answer, Distance, FloatAnswer, float_entry};
use harness::{
    ENTRY, Entry, PutLine, Sizes, entry_at, put, put_cap, put_float, put_number, put_refusal, run,
};
use vector::{MAX_DIM, RunInput, ValueVector};

// A record has 64 bytes, 1,024 records are read at once, and a line has at most 804 floats and two counts,
// a space before each, a letter and its end.
const SIZES: Sizes = Sizes {
    size: ENTRY,
    block: 65536,
    line: 13712,
};

// A space and a side's distance.
fn put_side(out: &mut [u8], at: usize, d: Distance) -> usize {
    match d {
        Some(x) => put_float(out, at, x),
        None => put(out, at, b" -"),
    }
}

// A space and a float, for each of the first n.
fn put_floats(out: &mut [u8], start: usize, s: &[f64; MAX_DIM], n: usize) -> usize {
    let mut at = start;
    for x in s.iter().take(n) {
        at = put_float(out, at, *x);
    }
    at
}

// The length of a vector, its weights and its offsets.
fn put_vector(out: &mut [u8], start: usize, v: ValueVector) -> usize {
    let n = v.n;
    let w = v.w;
    let o = v.log_offset;
    let mut at = put_number(out, start, n as u64);
    at = put_floats(out, at, &w, n);
    put_floats(out, at, &o, n)
}

// `V`, the steps and both sides.
fn put_distances(out: &mut [u8], start: usize, bid: Distance, ask: Distance, steps: u32) -> usize {
    let mut at = put(out, start, b"V");
    at = put_number(out, at, u64::from(steps));
    at = put_side(out, at, bid);
    put_side(out, at, ask)
}

// An answer, with its vector where there are distances.
fn put_answer(out: &mut [u8], start: usize, answer: Answer, v: ValueVector) -> usize {
    match answer {
        Answer::Distances(bid, ask, steps) => {
            let at = put_distances(out, start, bid, ask, steps);
            put_vector(out, at, v)
        }
        Answer::OverCap(needed, budget, _) => put_cap(out, start, needed, budget),
        Answer::Refused(refusal) => put_refusal(out, start, refusal.0),
    }
}

// The answer to the record at a place.
fn answer_at(s: &[u8], at: usize) -> FloatAnswer {
    let Entry {
        k,
        alpha,
        eta,
        base,
        bound,
        tau,
        q,
        beta,
    } = entry_at(s, at);
    // here and in countrun: harness stands on no crate that has `RunInput`
    let input = RunInput {
        alpha,
        beta,
        eta,
        bound,
        tau,
    };
    float_entry(k, base, input, q)
}

// The line of the record at a place.
#[derive(Drop)]
struct Program;

impl PutLine for Program {
    ghost puts = { λ _ _ _ _ _ _ _ _. Unit {0} };

    fn put_line(&mut self, out: &mut [u8], used: usize, s: &[u8], at: usize) -> usize {
        let a = answer_at(s, at);
        let answer = a.answer;
        let v = a.vector;
        let end = put_answer(out, used, answer, v);
        put(out, end, b"\n")
    }
}

fn main() {
    run(SIZES, &mut Program);
}
