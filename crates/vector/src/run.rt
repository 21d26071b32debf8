// The run that gives the value vector: steps of the series, the division by the largest weight, and
// rebalancing. Every slice has an entry for each row, or, where `half` is true, for each row up to the
// centre: the others mirror them.
ghost use Rattle.std.specs.Prelude.{◌≡◌, ◌+◌, ◌-◌, ◌≤◌, length, true, false, not, ◌&&◌};
ghost use Rattle.std.specs.Bool.{then_some};
ghost use Rattle.std.specs.Float.{inf};
ghost use Rattle.std.specs.Float.Ieee.{lt};
ghost use Rattle.elementary.specs.Float.{◌⊕◌, ◌⊘◌, 0ᶠ, 1ᶠ, finite, positive};
ghost use Rattle.elementary.specs.Elementary.{LN, or_nan};
ghost use Rattle.operator.specs.Vectors.{tab, at, fill, every, fold, larger, smaller};
ghost use Rattle.plan.specs.Plan.{bound_ok, cap, begin};
ghost use Rattle.vector.specs.Run.{run, run_on, divided, rebalances};
ghost use Rattle.operator.specs.Operator.{rows};
ghost use Rattle.vector.specs.Values.{blank_vector, vector_of, refused_vector, vector_by};
ghost use Rattle.vector.specs.Inner.{paced_of, stopped_of, refused_pace, told, Sound, SoundPace, AfterIs, PlanSpent, NextIs, weight, EndIs};
ghost use Rattle.series.specs.Slices.{Sizes, Fit};
ghost use Rattle.series.specs.Half.{filled_out, full_size, full_factors, full, Centred};
ghost use Rattle.vector.specs.Half.{full_fixed, RowsStand};

use crate::refusals::NUMERICAL;
use crate::{MAX_DIM, MAX_EXPM_STEPS, Outcome, RunInput, ValueVector, VectorAnswer};
use elementary::Refusal;
use plan::Planned;

// The steps of a plan that are still to make, with budget left for at least one; the time left, and the
// time of a step.
#[derive(Clone, Copy)]
pub(crate) struct Steps {
    pub(crate) steps: u32,
    pub(crate) budget: u32,
    pub(crate) remaining: f64,
    pub(crate) dt: f64,
}

// What follows the steps of a plan: another plan, with the budget and the time left, or the end.
#[derive(Clone, Copy)]
pub(crate) enum Next {
    Plan(u32, f64),
    Over(Outcome),
}

// Where a run stands: it goes on with steps of a plan, or they are behind it.
#[derive(Clone, Copy)]
pub(crate) enum Pace {
    Going(Steps),
    Behind(Next),
}

// The steps of a plan; with none left the run is done, and with no budget left it is refused.
fn paced(steps: u32, budget: u32, remaining: f64, dt: f64) -> Pace
    requires { budget ≤ cap }
    ensures { result ≡ paced_of steps budget remaining dt }
{
    if steps == 0 {
        return stopped(Outcome::Done(MAX_EXPM_STEPS - budget));
    }
    if budget == 0 {
        return refused();
    }
    Pace::Going(Steps {
        steps,
        budget,
        remaining,
        dt,
    })
}

// A run that is over.
fn stopped(stop: Outcome) -> Pace
    ensures { result ≡ stopped_of stop }
{
    Pace::Behind(Next::Over(stop))
}

fn refused() -> Pace
    ensures { result ≡ refused_pace }
{
    stopped(Outcome::Refused(NUMERICAL))
}

// A plan that needs more steps than the budget has left.
fn over_cap(need: f64, budget: u32) -> Pace
    requires { budget ≤ cap }
    ensures { result ≡ stopped_of (Outcome.OverCap need budget (cap - budget)) }
{
    stopped(Outcome::OverCap(need, budget, MAX_EXPM_STEPS - budget))
}

// A plan for the rest of the time, as where a run stands.
fn pace_of(plan: Planned, budget: u32, rest: f64) -> Pace
    requires { budget ≤ cap }
    ensures { result ≡ told budget rest plan }
{
    match plan {
        Planned::Steps(steps, dt) => paced(steps, budget, rest, dt),
        Planned::OverCap(need) => over_cap(need, budget),
        Planned::Refused => refused(),
    }
}

// The largest weight, where all are above zero and it is finite, as then all are.
fn top_of(weight: f64, above: bool) -> Option<f64>
    ensures { result ≡ then_some (above && finite weight) weight }
{
    (above & elementary::is_finite(weight)).then_some(weight)
}

// The largest weight, where all are finite and positive. In one pass, by the even and the odd places
// apart: neither waits for the other.
fn largest(w: &[f64]) -> Option<f64>
    requires { Fit w.now }
    ensures { result ≡ then_some (every (length w.now) (λ i. positive (at w.now i))) (fold larger 0ᶠ w.now) }
{
    let mut even = 0.0;
    let mut odd = 0.0;
    let mut first = true;
    let mut second = true;
    for k in 0..w.len() / 2 {
        let x = w[2 * k];
        let y = w[2 * k + 1];
        even = plan::larger_of(even, x);
        odd = plan::larger_of(odd, y);
        first = first & (0.0 < x);
        second = second & (0.0 < y);
    }
    let both = plan::larger_of(even, odd);
    let all = first & second;
    if w.len() % 2 == 1 {
        let x = w[w.len() - 1];
        return top_of(plan::larger_of(both, x), all & (0.0 < x));
    }
    top_of(both, all)
}

// Divides each weight by max. False where one of them then calls for rebalancing.
fn divide(w: &mut [f64], max: f64, steps: u32) -> bool
    ensures w_after { w.new ≡ tab (length w.old) (λ i. at w.old i ⊘ max) }
    ensures value { result ≡ not (rebalances (fold smaller (inf false) w.new) steps) }
{
    let mut calm = true;
    for i in 0..w.len() {
        let x = w[i] / max;
        w[i] = x;
        calm = calm & !crate::must_rebalance(x, steps);
    }
    calm
}

// Moves each weight into its offset. False where one is not finite and positive.
fn rebalance(w: &mut [f64], o: &mut [f64]) -> bool
    requires { length o.old ≡ length w.old }
    ensures w_after { w.new ≡ fill (length w.old) 1ᶠ }
    ensures o_after { o.new ≡ tab (length w.old) (λ i. at o.old i ⊕ or_nan (LN (at w.old i))) }
    ensures value { result ≡ every (length w.old) (λ i. positive (at w.old i)) }
{
    let mut all = true;
    for i in 0..w.len() {
        let x = w[i];
        all = all & elementary::is_positive_finite(x);
        o[i] = o[i] + elementary::or_nan(elementary::ln(x));
        w[i] = 1.0;
    }
    all
}

// After a Taylor step that has settled or not: the next of the plan, or a plan to ask for, or the end.
fn after_step(w: &mut [f64], o: &mut [f64], going: Steps, settled: bool) -> Pace
    requires { Fit w.old × (length o.old ≡ length w.old) × Sound going }
    ensures { AfterIs (settled && every (length w.old) (λ i. positive (at w.old i))) (length w.old) going (divided (length w.old) w.old) o.old result w.new o.new }
{
    if !settled {
        return refused();
    }
    let Some(max) = largest(w) else {
        return refused();
    };
    let steps = going.steps - 1;
    let budget = going.budget - 1;
    let remaining = going.remaining - going.dt;
    if divide(w, max, steps) {
        return paced(steps, budget, remaining, going.dt);
    }
    if rebalance(w, o) {
        return Pace::Behind(Next::Plan(budget, remaining));
    }
    refused()
}

// The steps of a plan, until there is another to make or the run is over. The slices come one by one, as
// `taylor_step` takes them.
fn plan_steps(
    w: &mut [f64],
    o: &mut [f64],
    diag: &[f64],
    left: &[f64],
    right: &[f64],
    term: &mut [f64],
    eta: f64,
    first: Pace,
    half: bool,
) -> Next
    requires start { (2 ≤ length w.old) × (length o.old ≡ length w.old) × SoundPace first × Centred half (length w.old) left.now right.now }
    requires sizes { Sizes (length w.old) diag.now left.now right.now term.old }
    ensures { PlanSpent (full_size half (length w.old)) eta (full half (length w.old) w.old) (full half (length w.old) o.old)
        (full_factors half (length w.old) left.now right.now) (full_factors half (length w.old) right.now left.now) (full half (length w.old) diag.now)
        first (full half (length w.old) w.new) (full half (length w.old) o.new) result }
{
    let plain = operator::all_ones(left, right);
    let mut pace = first;
    // No `for`: a step says whether another is due.
    loop {
        match pace {
            Pace::Going(going) => {
                let eta_dt = eta * going.dt;
                let settled = series::taylor_step(w, diag, eta_dt, left, right, half, plain, term);
                pace = after_step(w, o, going, settled);
            }
            Pace::Behind(next) => return next,
        }
    }
}

// What stays through a run: the diagonal a second, by its rows, and eta.
#[derive(Clone, Copy)]
struct Fixed<'a> {
    diag_s: &'a [f64],
    eta: f64,
    half: bool,
}

// A plan for the rest of the time, from weights of 1.0, and its steps, with room for what they work
// on.
fn run_plan(w: &mut [f64], o: &mut [f64], fixed: Fixed<'_>, rest: f64, budget: u32) -> Next
    requires { let n = length fixed.diag_s.now in (2 ≤ n) × (n ≤ 401) × (length w.old ≡ n) × (length o.old ≡ n) × (budget ≤ cap) × (full fixed.half n w.old ≡ fill (full_size fixed.half n) 1ᶠ) }
    ensures { let f = fixed.entry in let n = length f.diag_s.now in let p = full_fixed f.half n f.diag_s.now f.eta in
        NextIs p (run_on budget p (begin p budget (fill (full_size f.half n) 1ᶠ) (full f.half n o.old) rest))
        (full f.half n w.new) (full f.half n o.new) result × (weight result ≤ budget) }
{
    let n = fixed.diag_s.len();
    let mut diag = plan::zeros();
    let mut left = plan::zeros();
    let mut right = plan::zeros();
    let planned = plan::set_plan(
        o,
        fixed.diag_s,
        &mut diag[..n],
        &mut left[..n],
        &mut right[..n],
        fixed.eta,
        rest,
        budget,
        fixed.half,
    );
    let first = pace_of(planned, budget, rest);
    let mut term = plan::zeros();
    plan_steps(
        w,
        o,
        &diag[..n],
        &left[..n],
        &right[..n],
        &mut term[..n],
        fixed.eta,
        first,
        fixed.half,
    )
}

// The run over a time above zero, from weights of 1.0: plan after plan.
fn run_plans(w: &mut [f64], o: &mut [f64], fixed: Fixed<'_>, tau: f64) -> Outcome
    requires { let n = length fixed.diag_s.now in (2 ≤ n) × (n ≤ 401) × (w.old ≡ fill n 1ᶠ) × (length o.old ≡ n) }
    ensures { let f = fixed.entry in let n = length f.diag_s.now in let p = full_fixed f.half n f.diag_s.now f.eta in
        EndIs (run_on cap p (begin p cap (fill (full_size f.half n) 1ᶠ) (full f.half n o.old) tau))
        result (full f.half n w.new) (full f.half n o.new) }
{
    let mut next = Next::Plan(MAX_EXPM_STEPS, tau);
    // No `for`: a plan says whether another is due.
    loop {
        match next {
            Next::Plan(budget, rest) => next = run_plan(w, o, fixed, rest, budget),
            Next::Over(outcome) => return outcome,
        }
    }
}

// A vector of no entries: every place is 0.0.
pub(crate) fn blank() -> ValueVector
    ensures { result ≡ blank_vector }
{
    ValueVector {
        w: plan::zeros(),
        log_offset: plan::zeros(),
        n: 0,
    }
}

// A refusal, with the blank vector.
pub fn refused_vector(refusal: Refusal) -> VectorAnswer
    ensures { result ≡ refused_vector refusal }
{
    VectorAnswer {
        outcome: Outcome::Refused(refusal),
        vector: blank(),
    }
}

// A vector of n entries at the end of the time: weights of 1.0, offsets of 0.0.
fn at_end(n: usize) -> ValueVector
    requires { n ≤ 401 }
    ensures { result ≡ vector_of n (fill n 1ᶠ) (fill n 0ᶠ) }
{
    let mut w = plan::zeros();
    w[..n].fill(1.0);
    ValueVector {
        w,
        log_offset: plan::zeros(),
        n,
    }
}

// Rows n up from those before the centre that they mirror.
fn fill_mirror(x: &mut [f64], n: usize)
    requires { (1 ≤ n) × (n ≤ length x.old) × (length x.old ≤ n + n) }
    ensures { x.new ≡ filled_out (length x.old) n x.old x.old }
{
    let last = x.len() - 1;
    for i in n..x.len() {
        x[i] = x[last - i];
    }
}

// The run over tau seconds, above zero, by n rows, which stand for all: refused by 11 at once where an
// entry of the diagonal is not finite.
fn run_rows(w: &mut [f64], o: &mut [f64], input: RunInput, n: usize, half: bool) -> Outcome
    requires start { (2 ≤ n) × (n ≤ rows input.bound) × (input.bound ≤ 200) × (lt 0ᶠ input.tau ≡ true) × (w.old ≡ fill n 1ᶠ) × (o.old ≡ fill n 0ᶠ) }
    requires rows_stand { RowsStand half n input.bound input.alpha input.beta input.eta }
    ensures { EndIs (run input) result (full half n w.new) (full half n o.new) }
{
    let mut diag_s = plan::zeros();
    if operator::fill_shifted_diagonal(
        input.alpha,
        input.beta,
        input.eta,
        input.bound,
        &mut diag_s[..n],
    ) {
        let fixed = Fixed {
            diag_s: &diag_s[..n],
            eta: input.eta,
            half,
        };
        return run_plans(w, o, fixed, input.tau);
    }
    Outcome::Refused(NUMERICAL)
}

// Takes a vector from the end of the time back over tau seconds, above zero, by its rows, which stand for
// all, and hands it back with every row filled; or the blank one where the run is not done.
fn run_back(v: ValueVector, input: RunInput, n: usize, half: bool) -> VectorAnswer
    requires start { (2 ≤ n) × (n ≤ rows input.bound) × (input.bound ≤ 200) × (lt 0ᶠ input.tau ≡ true) × (v ≡ vector_of n (fill n 1ᶠ) (fill n 0ᶠ)) }
    requires rows_stand { RowsStand half n input.bound input.alpha input.beta input.eta }
    ensures { result ≡ vector_by (rows input.bound) (run input) }
{
    let mut w = v.w;
    let mut o = v.log_offset;
    let outcome = run_rows(&mut w[..n], &mut o[..n], input, n, half);
    if let Outcome::Done(steps) = outcome {
        let all = (2 * input.bound + 1) as usize;
        fill_mirror(&mut w[..all], n);
        fill_mirror(&mut o[..all], n);
        return VectorAnswer {
            outcome: Outcome::Done(steps),
            vector: ValueVector {
                w,
                log_offset: o,
                n: all,
            },
        };
    }
    VectorAnswer {
        outcome,
        vector: blank(),
    }
}

// The vector at tau seconds before the end. Without a drift the rows up to the centre are enough.
pub(crate) fn run_vector(input: RunInput) -> VectorAnswer
    requires { (bound_ok input.bound ≡ true) × (positive input.alpha ≡ true) × (positive input.eta ≡ true) }
    ensures { result ≡ vector_by (rows input.bound) (run input) }
{
    let centre = input.bound as usize;
    let n = 2 * centre + 1;
    if 0.0 < input.tau {
        if input.beta == 0.0 {
            let half = centre + 1;
            return run_back(at_end(half), input, half, true);
        }
        return run_back(at_end(n), input, n, false);
    }
    VectorAnswer {
        outcome: Outcome::Done(0),
        vector: at_end(n),
    }
}
