// One value vector for every holding: the reckoning of a configuration and a market, and the quotes of
// so many lots from it.
#![tactic(auto)]

ghost use Rattle.std.specs.Prelude.{◌≡◌, ◌*ℤ◌, T};
ghost use Rattle.amounts.specs.Amounts.{amount_ok, above0};
ghost use Rattle.model.specs.Model.{model_ok, input_of};
ghost use Rattle.vector.specs.Values.{value_vector};
ghost use Rattle.lots.specs.Reckoning.{reckon_if, beside, reckoning, quotes_from, lent_reckoning, quotes_of_lots};

use amounts::refusals::LIMITS;
use model::{GLFTConfig, Model};
use quote::{ExactQuotes, quotes_by};
use vector::{MAX_DIM, Outcome, VectorAnswer};

// What the quotes of every holding are made from: the model's k and base, and its value vector.
#[derive(Clone, Copy)]
pub struct Reckoning {
    pub k: f64,
    pub base: f64,
    pub vector: VectorAnswer,
}

// The value vector of a model, or 5 in its place.
fn vector_of(m: Model, tau: f64) -> VectorAnswer
    ensures { result ≡ reckon_if (model_ok m) (value_vector (input_of m tau)) }
{
    if model::floats_fit(m) {
        return vector::value_vector(model::run_input(m, tau));
    }
    vector::refused_vector(elementary::OUTSIDE)
}

// A number beside a vector: 0.0 where a report or a refusal is in the vector's place.
fn beside_vector(outcome: Outcome, x: f64) -> f64
    ensures { result ≡ beside outcome x }
{
    match outcome {
        Outcome::Done(_) => x,
        Outcome::OverCap(_, _, _) => 0.0,
        Outcome::Refused(_) => 0.0,
    }
}

// The reckoning of a configuration and a market. The model's 5 stands in the vector's place, as do 5, 1,
// 11 and the cap report of the run; k and base are 0.0 then.
pub fn reckon(config: GLFTConfig, volatility: i64, current_time: u64) -> Reckoning
    ensures { result ≡ reckoning config volatility current_time }
{
    let m = model::model_of(config, volatility);
    let tau = amounts::seconds_to_terminal(config.terminal_time, current_time);
    let vector = vector_of(m, tau);
    let outcome = vector.outcome;
    Reckoning {
        k: beside_vector(outcome, m.k),
        base: beside_vector(outcome, m.base),
        vector,
    }
}

// The exact quotes at q lots from what `value_vector` answered: refused by 2 where the mid or the min
// spread is beyond the limit, then as the vector's answer and its distances are, then by 13 and 14.
pub fn quotes_from(
    mid_price: i64,
    min_spread: i64,
    k: f64,
    base: f64,
    q: i64,
    vector: VectorAnswer,
) -> ExactQuotes
    ensures { result ≡ quotes_from mid_price min_spread k base q vector }
{
    quotes_by(
        mid_price,
        min_spread,
        distances::answer_from(vector, k, base, q),
    )
}

// Whether the holding of so many lots is within the limit. No product is formed, so none is beyond 64
// bits.
fn lots_fit(q: i64, lot_size: i64) -> bool
    requires { T (above0 lot_size) }
    ensures { result ≡ amount_ok (q *ℤ lot_size) }
{
    let most = GLFTConfig::MAX_AMOUNT / lot_size;
    q.unsigned_abs() <= most.unsigned_abs()
}

// The exact quotes of so many lots from a reckoning, whose vector's n weights and offsets are lent: a
// call copies none of them. Refused by 1 where the lot size is not positive, by 2 where the lots'
// holding is beyond the limit, then as `quotes_from`.
pub fn quotes_in<'a>(
    mid_price: i64,
    config: GLFTConfig,
    k: f64,
    base: f64,
    outcome: Outcome,
    w: &'a [f64; MAX_DIM],
    log_offset: &'a [f64; MAX_DIM],
    n: usize,
    q: i64,
) -> ExactQuotes
    ensures { result ≡ quotes_of_lots mid_price config (lent_reckoning k base outcome n w.now log_offset.now) q }
{
    if amounts::is_positive(config.lot_size) {
        if lots_fit(q, config.lot_size) {
            let answer = distances::answer_in(outcome, w, log_offset, n, k, base, q);
            return quotes_by(mid_price, config.min_spread, answer);
        }
        return ExactQuotes::Refused(LIMITS);
    }
    ExactQuotes::Refused(vector::refusals::CONFIGURATION)
}

// The same from a reckoning by value.
pub fn quotes_of_lots(mid_price: i64, config: GLFTConfig, r: Reckoning, q: i64) -> ExactQuotes
    ensures { result ≡ quotes_of_lots mid_price config r q }
{
    let a = r.vector;
    let outcome = a.outcome;
    quotes_in(
        mid_price,
        config,
        r.k,
        r.base,
        outcome,
        &a.vector.w,
        &a.vector.log_offset,
        a.vector.n,
        q,
    )
}
