// From answers before prices to quotes.
ghost use Rattle.std.specs.Prelude.{◌≡◌, T};
ghost use Rattle.distances.specs.FloatEntry.{float_entry};
ghost use Rattle.amounts.specs.Amounts.{amount_ok};
ghost use Rattle.quote.specs.Quotes.{with_steps, exact_by, closed_by, quotes_by_answer};
ghost use Rattle.prices.specs.Prices.{each, widened, judge, build_quotes};
ghost use Rattle.model.specs.Model.{input_of};

use crate::ExactQuotes;
use amounts::amount_fits;
use amounts::refusals::LIMITS;
use distances::{Answer, Distance, Sides};
use elementary::Refusal;
use model::Model;
use prices::{GlftQuotes, Price};

// What the distances are laid around: a mid, with the least spread, both within the limit.
#[derive(Clone, Copy)]
pub(crate) struct Around {
    pub(crate) mid: i64,
    pub(crate) least: i64,
    ghost mid_fits: { T (amount_ok mid) },
    ghost least_fits: { T (amount_ok least) },
}

// The quotes of two sides in whole billionths: widened to the min spread, then judged.
fn priced(around: Around, bid: Price, ask: Price) -> Result<GlftQuotes, Refusal>
    requires { T (each amount_ok bid) × T (each amount_ok ask) }
    ensures { result ≡ judge (widened around.mid around.least bid ask) }
{
    prices::judge(prices::widen(around.mid, around.least, bid, ask)?)
}

// Builds the quotes from the distances: rounded, widened and judged.
fn build_quotes(around: Around, bid: Distance, ask: Distance) -> Result<GlftQuotes, Refusal>
    ensures { result ≡ build_quotes around.mid around.least bid ask }
{
    let (b, a) = prices::round_sides(bid, ask)?;
    priced(around, b, a)
}

fn with_steps(b: Result<GlftQuotes, Refusal>, steps: u32) -> ExactQuotes
    ensures { result ≡ with_steps steps b }
{
    match b {
        Ok(q) => ExactQuotes::Quotes(q, steps),
        Err(refusal) => ExactQuotes::Refused(refusal),
    }
}

// The exact quotes of an answer before prices.
pub(crate) fn from_answer(around: Around, answer: Answer) -> ExactQuotes
    ensures { result ≡ exact_by around.mid around.least answer }
{
    match answer {
        Answer::Distances(bid, ask, steps) => with_steps(build_quotes(around, bid, ask), steps),
        Answer::OverCap(need, budget, steps) => ExactQuotes::OverStepCap(need, budget, steps),
        Answer::Refused(refusal) => ExactQuotes::Refused(refusal),
    }
}

// The exact quotes of a model at q lots.
pub(crate) fn exact_of(around: Around, m: Model, q: i64, tau: f64) -> ExactQuotes
    ensures { result ≡ exact_by around.mid around.least (float_entry m.k m.base (input_of m tau) q).answer }
{
    let r = distances::float_entry(m.k, m.base, model::run_input(m, tau), q);
    let answer = r.answer;
    from_answer(around, answer)
}

// The quotes of the closed form's distances.
pub(crate) fn closed_of(around: Around, sides: Sides) -> Result<GlftQuotes, Refusal>
    ensures { result ≡ closed_by around.mid around.least sides }
{
    let (bid, ask) = sides?;
    build_quotes(around, bid, ask)
}

// The exact quotes of any answer before prices: refused by 2 where the mid or the min spread is beyond
// the limit, then as the answer is, then by 11 where a distance is not finite, 13 and 14.
pub fn quotes_by(mid_price: i64, min_spread: i64, answer: Answer) -> ExactQuotes
    ensures { result ≡ quotes_by_answer mid_price min_spread answer }
{
    if amount_fits(mid_price) {
        if amount_fits(min_spread) {
            let around = Around {
                mid: mid_price,
                least: min_spread,
            };
            return from_answer(around, answer);
        }
    }
    ExactQuotes::Refused(LIMITS)
}
