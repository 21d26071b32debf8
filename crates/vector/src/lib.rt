// The float layer: the run that gives the value vector.
#![tactic(auto)]

pub mod refusals;
mod run;

ghost use Rattle.std.specs.Prelude.{◌≡◌};
ghost use Rattle.vector.specs.Run.{rebalances};
ghost use Rattle.vector.specs.Values.{value_vector};

use elementary::Refusal;
pub use plan::{
    FirstPlan, MAX_DIM, MAX_EXPM_STEPS, MAX_INVENTORY_LOTS, RunInput, check_input, first_plan,
};
pub use run::refused_vector;

// Below this weight a step is followed by rebalancing.
const REBALANCE_FLOOR: f64 = 1e-200;

// v_i is proportional to w_i exp(log_offset_i), over the first n entries; the rest is 0.0. Arrays of a fixed size
// with a length beside them, and no `Vec`: the unit takes no memory while it runs.
#[derive(Clone, Copy)]
pub struct ValueVector {
    pub w: [f64; MAX_DIM],
    pub log_offset: [f64; MAX_DIM],
    pub n: usize,
}

// The end of a run: the steps spent; or the steps needed, the budget left and the steps spent; or a
// refusal. A report is no refusal, so the three stand beside one another.
#[derive(Clone, Copy)]
pub enum Outcome {
    Done(u32),
    OverCap(f64, u32, u32),
    Refused(Refusal),
}

// A run's end, with the value vector beside it: the blank one, unless the run is done.
#[derive(Clone, Copy)]
pub struct VectorAnswer {
    pub outcome: Outcome,
    pub vector: ValueVector,
}

// Whether a step is followed by rebalancing: steps remain, and the smallest weight is below 1e-200.
// The run asks it of each weight: one calls for rebalancing just where the smallest does.
pub fn must_rebalance(smallest: f64, steps: u32) -> bool
    ensures { result ≡ rebalances smallest steps }
{
    (0 < steps) & (smallest < REBALANCE_FLOOR)
}

// The value vector at tau seconds before the end: refused by 5, then 1, then 11.
pub fn value_vector(input: RunInput) -> VectorAnswer
    ensures { result ≡ value_vector input }
{
    match check_input(input) {
        Ok(()) => run::run_vector(input),
        Err(refusal) => run::refused_vector(refusal),
    }
}
