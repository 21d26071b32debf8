// New factors, a plan over them and its diagonal, in the slices that a caller lends. Those whose lengths do
// not fit stay as they are.
ghost use Rattle.std.specs.Prelude.{◌≡◌, ◌&&◌, length};
ghost use Rattle.operator.specs.Slices.{factors_fit, left_over, right_over, both_fine};
ghost use Rattle.plan.specs.Slices.{diagonal_for, plan_from};

use crate::plan::{Factors, Planned, plan_over};

// The diagonal of a plan's steps; it stays as it is where there are none.
fn scale_for(plan: Planned, diag_s: &[f64], diag: &mut [f64])
    ensures { diag.new ≡ diagonal_for plan diag_s.now diag.old }
{
    match plan {
        Planned::Steps(_, dt) => operator::scale_diagonal(diag_s, dt, diag),
        Planned::OverCap(_) => {}
        Planned::Refused => {}
    }
}

// New factors for the offsets, a plan for the rest of the time where all of them are finite, and its
// diagonal.
pub fn set_plan(
    o: &[f64],
    diag_s: &[f64],
    diag: &mut [f64],
    left: &mut [f64],
    right: &mut [f64],
    eta: f64,
    rest: f64,
    budget: u32,
    half: bool,
) -> Planned
    ensures left_after { left.new ≡ left_over o.now left.old right.old }
    ensures right_after { right.new ≡ right_over half o.now left.old right.old }
    ensures diag_after { diag.new ≡ diagonal_for result diag_s.now diag.old }
    ensures value { result ≡ plan_from (factors_fit o.now left.old right.old && both_fine (length o.now) left.new right.new) rest diag_s.now eta left.new right.new budget }
{
    if operator::set_factors(o, left, right, half) {
        let plan = plan_over(rest, diag_s, eta, Factors { left, right }, budget);
        scale_for(plan, diag_s, diag);
        return plan;
    }
    Planned::Refused
}
