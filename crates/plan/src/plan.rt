// The plan of steps for the time that remains.
ghost use Rattle.std.specs.Prelude.{◌≡◌, length};
ghost use Rattle.plan.specs.Plan.{norm, needed, fixed_over, plan_for, plan_with};

const STEP_NORM: f64 = 2.0;

// The steps and the time of each; or the steps needed, above the budget; or none: in a run, whose slices
// agree, refusal 11. Three outcomes, as in `FirstPlan`.
#[derive(Clone, Copy)]
pub enum Planned {
    Steps(u32, f64),
    OverCap(f64),
    Refused,
}

// The left and right factors by reference.
#[derive(Clone, Copy)]
pub(crate) struct Factors<'a> {
    pub(crate) left: &'a [f64],
    pub(crate) right: &'a [f64],
}

// The largest row sum, of the diagonal's magnitude and what its neighbours take.
fn norm_of(diag_s: &[f64], eta: f64, factors: Factors<'_>) -> f64
    requires { (length factors.left.now ≡ length diag_s.now) × (length factors.right.now ≡ length diag_s.now) }
    ensures { let f = factors.entry in result ≡ norm (fixed_over (length diag_s.now) diag_s.now eta) f.left.now f.right.now }
{
    let Factors { left, right } = factors;
    let mut norm = 0.0;
    for i in 0..diag_s.len() {
        let d = diag_s[i];
        let sum = operator::magnitude(d) + eta * (left[i] + right[i]);
        norm = crate::reals::larger_of(norm, sum);
    }
    norm
}

// The steps for a norm times a time: half of that rounded up, at least 1.0.
fn steps_needed(size: f64) -> f64
    ensures { result ≡ needed size }
{
    let up = elementary::or_nan(elementary::ceil(size / STEP_NORM));
    crate::reals::larger_of(up, 1.0)
}

// The plan for a norm times a time that is finite and positive.
pub(crate) fn plan_for(size: f64, tau: f64, budget: u32) -> Planned
    ensures { result ≡ plan_for size tau budget }
{
    let need = steps_needed(size);
    if need <= (budget as f64) {
        let steps: u64 = std::num::truncating_f64_to_u64(need);
        return Planned::Steps(steps as u32, tau / need);
    }
    Planned::OverCap(need)
}

// The plan for tau, with so many steps of the budget left: refused where a slice of factors is not as long
// as the diagonal.
pub(crate) fn plan_over(
    tau: f64,
    diag_s: &[f64],
    eta: f64,
    factors: Factors<'_>,
    budget: u32,
) -> Planned
    ensures { let f = factors.entry in result ≡ plan_with tau diag_s.now eta f.left.now f.right.now budget }
{
    let Factors { left, right } = factors;
    if left.len() != diag_s.len() {
        return Planned::Refused;
    }
    if right.len() != diag_s.len() {
        return Planned::Refused;
    }
    let size = tau * norm_of(diag_s, eta, factors);
    if elementary::is_positive_finite(size) {
        return plan_for(size, tau, budget);
    }
    Planned::Refused
}
