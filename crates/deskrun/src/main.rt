// Reads desks from standard input, thirteen words of eight bytes each, lowest first: mid, holding,
// volatility, risk aversion, k, A, bound, lot size, terminal, current, min spread, the entry and the
// drift. The entry is 0 for `exact_quotes`, 1 for `calculate_optimal_quotes`, 2 for
// `closed_form_quotes`, 3 for `GLFTConfig::new`, any other for `Model::new`. An amount is a count of
// billionths in two's complement. Writes a line for each: `Q`, bid and ask in billionths (`-` if
// absent) and the steps, which the closed form has none of; `C`, the steps needed as a float's 16 hex
// digits, the budget left and the steps spent; `P` for a configuration that passes; `M`, a model's
// eight floats, beta the last, its bound and the holding in lots; or `R` and a refusal's number. A
// bound that 32 bits do not hold is refused by 2, and a record that ends inside itself, the last, by 6.
#![tactic(auto)]

use desk::{amount_at, config_at, put_exact, put_float, put_quotes};
use harness::{
    LARGEST_BOUND, PutLine, Sizes, put, put_number, put_refusal, put_signed, run, word_at,
};
use quote::refusals::LIMITS;
use quote::{ExactQuotes, GLFTConfig, GLFTStrategy, GlftQuotes, Model, Refusal};

// A record has 104 bytes, 630 records are read at once, and a line has at most a letter, eight floats, two
// numbers with their spaces and a sign, and its end.
const SIZES: Sizes = Sizes {
    size: 104,
    block: 65520,
    line: 181,
};

// A space and a number with its sign.
fn put_lots(out: &mut [u8], at: usize, q: i64) -> usize {
    let next = put(out, at, b" ");
    put_signed(out, next, q)
}

// The line of an exact call that has quotes, or a refusal.
fn put_optimal(out: &mut [u8], at: usize, a: Result<(GlftQuotes, u32), Refusal>) -> usize {
    match a {
        Ok((q, steps)) => put_exact(out, at, ExactQuotes::Quotes(q, steps)),
        Err(refusal) => put_refusal(out, at, refusal.0),
    }
}

fn put_closed_form(out: &mut [u8], at: usize, a: Result<GlftQuotes, Refusal>) -> usize {
    match a {
        Ok(q) => put_quotes(out, at, q),
        Err(refusal) => put_refusal(out, at, refusal.0),
    }
}

fn put_config(out: &mut [u8], at: usize, a: Result<GLFTConfig, Refusal>) -> usize {
    match a {
        Ok(_) => put(out, at, b"P"),
        Err(refusal) => put_refusal(out, at, refusal.0),
    }
}

// A model's four given floats.
fn put_given(out: &mut [u8], start: usize, m: Model) -> usize {
    let mut at = put_float(out, start, m.k);
    at = put_float(out, at, m.gamma);
    at = put_float(out, at, m.a);
    put_float(out, at, m.sigma2)
}

// The four reckoned, and the bound.
fn put_reckoned(out: &mut [u8], start: usize, m: Model) -> usize {
    let mut at = put_float(out, start, m.alpha);
    at = put_float(out, at, m.eta);
    at = put_float(out, at, m.base);
    at = put_float(out, at, m.beta);
    put_number(out, at, u64::from(m.q_max))
}

// `M`, a model, and the holding in lots.
fn put_lots_of(out: &mut [u8], start: usize, m: Model, q: i64) -> usize {
    let mut at = put(out, start, b"M");
    at = put_given(out, at, m);
    at = put_reckoned(out, at, m);
    put_lots(out, at, q)
}

fn put_model(out: &mut [u8], start: usize, a: Result<(Model, i64), Refusal>) -> usize {
    match a {
        Ok((m, q)) => put_lots_of(out, start, m, q),
        Err(refusal) => put_refusal(out, start, refusal.0),
    }
}

// The configuration anew, by its constructor.
fn renewed(c: GLFTConfig) -> Result<GLFTConfig, Refusal> {
    GLFTConfig::new(
        c.risk_aversion,
        c.order_intensity_k,
        c.intensity_scale_a,
        c.max_inventory_lots,
        c.lot_size,
        c.terminal_time,
        c.min_spread,
        c.drift,
    )
}

// What the entry answers to the record at a place.
fn put_answer(out: &mut [u8], start: usize, s: &[u8], at: usize) -> usize {
    let mid = amount_at(s, at, 0);
    let holding = amount_at(s, at, 8);
    let volatility = amount_at(s, at, 16);
    let c = config_at(s, at);
    let current = word_at(s, at, 72);
    // By the numbers that the head of this file has: an enum would name each entry once more, for this match alone.
    match word_at(s, at, 88) {
        0 => {
            let a = GLFTStrategy::exact_quotes(mid, holding, c, volatility, current);
            put_exact(out, start, a)
        }
        1 => {
            let a = GLFTStrategy::calculate_optimal_quotes(mid, holding, c, volatility, current);
            put_optimal(out, start, a)
        }
        2 => {
            let a = GLFTStrategy::closed_form_quotes(mid, holding, c, volatility);
            put_closed_form(out, start, a)
        }
        3 => put_config(out, start, renewed(c)),
        _ => put_model(out, start, Model::new(mid, holding, c, volatility)),
    }
}

// The line of the record at a place.
#[derive(Drop)]
struct Program;

impl PutLine for Program {
    ghost puts = { λ _ _ _ _ _ _ _ _. Unit {0} };

    fn put_line(&mut self, out: &mut [u8], used: usize, s: &[u8], at: usize) -> usize {
        if word_at(s, at, 48) > LARGEST_BOUND {
            let end = put_refusal(out, used, LIMITS.0);
            return put(out, end, b"\n");
        }
        let end = put_answer(out, used, s, at);
        put(out, end, b"\n")
    }
}

fn main() {
    run(SIZES, &mut Program);
}
