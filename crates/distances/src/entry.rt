// The float entry: a run, and the distances at a holding from the vector that it gives.
ghost use Rattle.std.specs.Prelude.{◌≡◌, true, ◌≤◌, nat_abs};
ghost use Rattle.vector.specs.Run.{bound_ok, run};
ghost use Rattle.elementary.specs.Checks.{first_failing, check_of};
ghost use Rattle.distances.specs.FloatEntry.{refused_entry, with_vector, answer_by, floats_ok, entry_checks};

use crate::lent::sides_at;
use crate::places::Scale;
use crate::refusals::HOLDING;
use crate::{Answer, FloatAnswer, Sides};
use elementary::Refusal;
use vector::{Outcome, RunInput, ValueVector};

// Whether the numbers of a call pass: refused by 5, then 1, then 4.
pub(crate) fn check_entry(scale: Scale, input: RunInput, q: i64) -> Result<(), Refusal>
    ensures { result ≡ check_of (first_failing (entry_checks scale.k scale.base input q)) }
{
    if crate::places::scale_fits(scale) {
        vector::check_input(input)?;
        if crate::within(q, input.bound) {
            return Ok(());
        }
        return Err(HOLDING);
    }
    Err(elementary::OUTSIDE)
}

// A refusal, with the blank vector.
pub(crate) fn refused_entry(refusal: Refusal) -> FloatAnswer
    ensures { result ≡ refused_entry refusal }
{
    let a = vector::refused_vector(refusal);
    let vector = a.vector;
    FloatAnswer {
        answer: Answer::Refused(refusal),
        vector,
    }
}

// The distances with the vector and the steps that gave them: under a refusal, the blank vector.
fn with_vector(vector: ValueVector, steps: u32, sides: Sides) -> FloatAnswer
    ensures { result ≡ with_vector vector steps sides }
{
    match sides {
        Ok((bid, ask)) => FloatAnswer {
            answer: Answer::Distances(bid, ask, steps),
            vector,
        },
        Err(refusal) => refused_entry(refusal),
    }
}

// The answer where the numbers pass the checks.
pub(crate) fn entry_within(scale: Scale, input: RunInput, q: i64) -> FloatAnswer
    requires { (floats_ok scale.k scale.base input ≡ true) × (bound_ok input.bound ≡ true) × (nat_abs q ≤ input.bound) }
    ensures { result ≡ answer_by input.bound scale.k scale.base q (run input) }
{
    let a = vector::value_vector(input);
    let outcome = a.outcome;
    let vector = a.vector;
    match outcome {
        Outcome::Done(steps) => {
            let place = crate::places::place_of(q, input.bound);
            with_vector(
                vector,
                steps,
                sides_at(&a.vector.w, &a.vector.log_offset, a.vector.n, scale, place),
            )
        }
        Outcome::OverCap(need, budget, steps) => FloatAnswer {
            answer: Answer::OverCap(need, budget, steps),
            vector,
        },
        Outcome::Refused(refusal) => refused_entry(refusal),
    }
}
