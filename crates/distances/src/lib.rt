// The exact distances at a holding, from a value vector; the float entry over both; and the count of
// its first plan.
#![tactic(auto)]

mod entry;
mod from_bits;
mod from_vector;
mod lent;
mod places;
pub mod refusals;

ghost use Rattle.std.specs.Prelude.{◌≡◌};
ghost use Rattle.distances.specs.Distances.{within, fine, exact_distances};
ghost use Rattle.distances.specs.FloatEntry.{float_entry};
ghost use Rattle.distances.specs.Count.{step_count};

use elementary::Refusal;
pub use from_bits::answer_in_bits;
pub use from_vector::{answer_from, answer_in};
use lent::Lent;
use places::Scale;
use vector::{FirstPlan, RunInput, ValueVector};

// A side's distance from the mid; at the bound one side is withheld.
pub type Distance = Option<f64>;

// The distances of bid and ask, or a refusal.
pub type Sides = Result<(Distance, Distance), Refusal>;

// The distances of bid and ask with the steps spent; or the steps needed, the budget left and the
// steps spent; or a refusal. A report is no refusal, so the three stand beside one another.
#[derive(Clone, Copy)]
pub enum Answer {
    Distances(Distance, Distance, u32),
    OverCap(f64, u32, u32),
    Refused(Refusal),
}

// An answer, with the value vector beside it: the blank one, unless there are distances.
#[derive(Clone, Copy)]
pub struct FloatAnswer {
    pub answer: Answer,
    pub vector: ValueVector,
}

// Whether q lots are within a bound.
pub fn within(q: i64, bound: u32) -> bool
    ensures { result ≡ within bound q }
{
    q.unsigned_abs() <= u64::from(bound)
}

// Whether a side is absent or its distance finite.
pub fn is_fine(d: Distance) -> bool
    ensures { result ≡ fine d }
{
    match d {
        Some(x) => elementary::is_finite(x),
        None => true,
    }
}

// The distances at q lots from a vector: refused by 5, then 1, then 4, then 11.
pub fn exact_distances(vector: ValueVector, k: f64, base: f64, q: i64) -> Sides
    ensures { result ≡ exact_distances vector k base q }
{
    let v = Lent {
        w: &vector.w,
        log_offset: &vector.log_offset,
        n: vector.n,
    };
    places::distances_in(v, Scale { k, base }, q)
}

// The float entry: the value vector, the steps spent and the distances at q lots, or the cap report.
// Refused by 5, then 1, then 4, then 11.
pub fn float_entry(k: f64, base: f64, input: RunInput, q: i64) -> FloatAnswer
    ensures { result ≡ float_entry k base input q }
{
    let scale = Scale { k, base };
    match entry::check_entry(scale, input, q) {
        Ok(()) => entry::entry_within(scale, input, q),
        Err(refusal) => entry::refused_entry(refusal),
    }
}

// The steps of the first plan of the float entry's run, before anything runs; 0 where no time is left.
// Refused by 5, then 1, then 4, as the float entry is, then 11.
pub fn step_count(k: f64, base: f64, input: RunInput, q: i64) -> FirstPlan
    ensures { result ≡ step_count k base input q }
{
    match entry::check_entry(Scale { k, base }, input, q) {
        Ok(()) => vector::first_plan(input),
        Err(refusal) => FirstPlan::Refused(refusal),
    }
}
