// The first plan of a run, before anything runs: from two of its rows where there is no drift, and
// from all of them else.
ghost use Rattle.std.specs.Prelude.{◌≡◌, ◌-◌, ◌≤◌, true, length};
ghost use Rattle.std.specs.Float.Ieee.{eq};
ghost use Rattle.elementary.specs.Float.{0ᶠ, 1ᶠ, 2ᶠ, positive};
ghost use Rattle.operator.specs.Vectors.{larger};
ghost use Rattle.plan.specs.Plan.{bound_ok, fixed_over, fixed, whole_plan, first_turn};
ghost use Rattle.plan.specs.Count.{plan_in, plan_ahead, row_sum};
ghost use Rattle.plan.specs.Inner.{ahead_of};

use crate::plan::{Factors, Planned, plan_over};
use crate::refusals::NUMERICAL;
use crate::{FirstPlan, MAX_EXPM_STEPS, RunInput};

// The sum of a row of so many lots, long or short, whose two factors add up to so much.
fn row_sum(alpha: f64, eta: f64, lots: u32, factors: f64) -> f64
    ensures { result ≡ row_sum alpha eta lots factors }
{
    let q = f64::from(lots);
    ((alpha * q) * q + 2.0 * eta) + eta * factors
}

// The largest row sum: that of the end row, which has one neighbour, or of the row next to it, which
// has two.
fn norm_at_first(alpha: f64, eta: f64, bound: u32) -> f64
    requires { 1 ≤ bound }
    ensures { result ≡ larger (row_sum alpha eta bound 1ᶠ) (row_sum alpha eta (bound - 1) 2ᶠ) }
{
    let end = row_sum(alpha, eta, bound, 1.0);
    let next = row_sum(alpha, eta, bound - 1, 2.0);
    crate::reals::larger_of(end, next)
}

// A plan with the whole budget, as a first plan.
fn ahead(plan: Planned) -> FirstPlan
    ensures { result ≡ ahead_of plan }
{
    match plan {
        Planned::Steps(steps, _) => FirstPlan::Steps(steps),
        Planned::OverCap(need) => FirstPlan::OverCap(need, MAX_EXPM_STEPS),
        Planned::Refused => FirstPlan::Refused(NUMERICAL),
    }
}

// The first plan without a drift, over a time above zero, from two rows.
fn plan_of_two(input: RunInput) -> FirstPlan
    requires { (bound_ok input.bound ≡ true) × (positive input.alpha ≡ true) × (eq input.beta 0ᶠ ≡ true) × (positive input.eta ≡ true) }
    ensures { result ≡ plan_in (first_turn (fixed input) input.tau) }
{
    let size = input.tau * norm_at_first(input.alpha, input.eta, input.bound);
    if elementary::is_positive_finite(size) {
        return ahead(crate::plan::plan_for(size, input.tau, MAX_EXPM_STEPS));
    }
    FirstPlan::Refused(NUMERICAL)
}

// The first plan over n rows of a diagonal that is finite.
fn plan_of_rows(diag: &[f64], eta: f64, tau: f64, n: usize) -> FirstPlan
    requires { (n ≤ 401) × (length diag.now ≡ n) }
    ensures { result ≡ plan_in (whole_plan (fixed_over n diag.now eta) tau) }
{
    let o = crate::zeros();
    let mut left = crate::zeros();
    let mut right = crate::zeros();
    if operator::set_factors(&o[..n], &mut left[..n], &mut right[..n], false) {
        let factors = Factors {
            left: &left[..n],
            right: &right[..n],
        };
        return ahead(plan_over(tau, diag, eta, factors, MAX_EXPM_STEPS));
    }
    FirstPlan::Refused(NUMERICAL)
}

// The first plan over a time above zero, from all rows.
fn plan_of_all(input: RunInput) -> FirstPlan
    requires { (1 ≤ input.bound) × (input.bound ≤ 200) }
    ensures { result ≡ plan_in (first_turn (fixed input) input.tau) }
{
    let n = (2 * input.bound + 1) as usize;
    let mut diag = crate::zeros();
    if operator::fill_shifted_diagonal(
        input.alpha,
        input.beta,
        input.eta,
        input.bound,
        &mut diag[..n],
    ) {
        return plan_of_rows(&diag[..n], input.eta, input.tau, n);
    }
    FirstPlan::Refused(NUMERICAL)
}

// The first plan where the numbers pass the checks.
pub(crate) fn plan_within(input: RunInput) -> FirstPlan
    requires { (bound_ok input.bound ≡ true) × (positive input.alpha ≡ true) × (positive input.eta ≡ true) }
    ensures { result ≡ plan_ahead input }
{
    if 0.0 < input.tau {
        if input.beta == 0.0 {
            return plan_of_two(input);
        }
        return plan_of_all(input);
    }
    FirstPlan::Steps(0)
}
