// The answer at a holding from what `value_vector` answered: one vector serves every holding.
ghost use Rattle.std.specs.Prelude.{◌≡◌};
ghost use Rattle.distances.specs.Distances.{lent};
ghost use Rattle.distances.specs.Reading.{sides_with, read_by, answer_from};

use crate::lent::Lent;
use crate::places::Scale;
use crate::{Answer, Sides};
use vector::{MAX_DIM, Outcome, VectorAnswer};

pub(crate) fn with_steps(sides: Sides, steps: u32) -> Answer
    ensures { result ≡ sides_with steps sides }
{
    match sides {
        Ok((bid, ask)) => Answer::Distances(bid, ask, steps),
        Err(refusal) => Answer::Refused(refusal),
    }
}

// The distances at q lots with the vector's steps, refused as `exact_distances` does; or the cap
// report or the refusal that is there in a vector's place. The vector's n weights and offsets are lent:
// a call copies none of them.
pub fn answer_in<'a>(
    outcome: Outcome,
    w: &'a [f64; MAX_DIM],
    log_offset: &'a [f64; MAX_DIM],
    n: usize,
    k: f64,
    base: f64,
    q: i64,
) -> Answer
    ensures { result ≡ read_by outcome (lent n w.now log_offset.now) k base q }
{
    match outcome {
        Outcome::Done(steps) => {
            let v = Lent { w, log_offset, n };
            with_steps(crate::places::distances_in(v, Scale { k, base }, q), steps)
        }
        Outcome::OverCap(need, budget, steps) => Answer::OverCap(need, budget, steps),
        Outcome::Refused(refusal) => Answer::Refused(refusal),
    }
}

// The same from what `value_vector` answered, by value.
pub fn answer_from(a: VectorAnswer, k: f64, base: f64, q: i64) -> Answer
    ensures { result ≡ answer_from a k base q }
{
    let outcome = a.outcome;
    let vector = a.vector;
    answer_in(outcome, &vector.w, &vector.log_offset, vector.n, k, base, q)
}
