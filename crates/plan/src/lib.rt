// The plan of steps for a run: the norm, the plan, and a run's first plan before anything runs.
#![tactic(auto)]

mod count;
mod plan;
mod reals;
pub mod refusals;
mod slices;

ghost use Rattle.std.specs.Prelude.{◌≡◌};
ghost use Rattle.elementary.specs.Float.{0ᶠ};
ghost use Rattle.elementary.specs.Checks.{first_failing, check_of};
ghost use Rattle.operator.specs.Vectors.{fill};
ghost use Rattle.plan.specs.Plan.{room};
ghost use Rattle.plan.specs.Input.{rates_ok, input_checks};
ghost use Rattle.plan.specs.Count.{first_plan};

use elementary::Refusal;
pub use plan::Planned;
pub use reals::larger_of;
pub use slices::set_plan;

// The largest bound.
pub const MAX_INVENTORY_LOTS: u32 = 200;

// The rows of the largest bound: the places of a vector's arrays.
pub const MAX_DIM: usize = 401;

// The most steps of a run.
pub const MAX_EXPM_STEPS: u32 = 11000;

// What a run, and so a value vector, is made from: alpha, what the drift makes a second, eta, the bound,
// and the seconds to the end.
#[derive(Clone, Copy)]
pub struct RunInput {
    pub alpha: f64,
    pub beta: f64,
    pub eta: f64,
    pub bound: u32,
    pub tau: f64,
}

// The first plan of a run: its steps; or the steps needed, above the budget left; or a refusal. A report
// is no refusal, so the three stand beside one another.
#[derive(Clone, Copy)]
pub enum FirstPlan {
    Steps(u32),
    OverCap(f64, u32),
    Refused(Refusal),
}

// A vector's array with 0.0 in every place. A name for it keeps its 401 entries out of the goals.
pub fn zeros() -> [f64; MAX_DIM]
    ensures { result ≡ fill room 0ᶠ }
{
    [0.0; MAX_DIM]
}

// Whether alpha and eta are finite and above zero, and beta and tau are finite.
fn floats_fit(input: RunInput) -> bool
    ensures { result ≡ rates_ok input }
{
    elementary::is_positive_finite(input.alpha)
        & elementary::is_finite(input.beta)
        & elementary::is_positive_finite(input.eta)
        & elementary::is_finite(input.tau)
}

// Whether a run can be made from an input: refused by 5, then 1.
pub fn check_input(input: RunInput) -> Result<(), Refusal>
    ensures { result ≡ check_of (first_failing (input_checks input)) }
{
    if floats_fit(input) {
        if (1 <= input.bound) & (input.bound <= MAX_INVENTORY_LOTS) {
            return Ok(());
        }
        return Err(refusals::CONFIGURATION);
    }
    Err(elementary::OUTSIDE)
}

// The first plan of the run from an input, before anything runs; 0 steps where no time is left. Refused by
// 5, then 1, then 11.
pub fn first_plan(input: RunInput) -> FirstPlan
    ensures { result ≡ first_plan input }
{
    match check_input(input) {
        Ok(()) => count::plan_within(input),
        Err(refusal) => FirstPlan::Refused(refusal),
    }
}
