// One step of the exponential by its Taylor series. Every slice has an entry for each row, or, where
// `half` is true, for each row up to the centre: the others mirror them.
ghost use Rattle.std.specs.Prelude.{◌≡◌, ◌≤◌, false, length};
ghost use Rattle.series.specs.Series.{small, converged, operator_over};
ghost use Rattle.series.specs.Slices.{five_sized, slice_term, sum_of, with_term, series_over, step_over};

use crate::rows::Rows;

const TAYLOR_TOL: f64 = 1e-16;

pub(crate) const MAX_TAYLOR_ORDER: u32 = 100;

// Whether t is at most 1e-16 of s in magnitude.
pub(crate) fn is_small(t: f64, s: f64) -> bool
    ensures { result ≡ small s t }
{
    operator::magnitude(t) <= TAYLOR_TOL * operator::magnitude(s)
}

// Whether every entry of a term is small beside its sum.
fn all_small(t: &[f64], v: &[f64]) -> bool
    requires { length v.now ≡ length t.now }
    ensures { result ≡ converged (length t.now) v.now t.now }
{
    let mut all = true;
    for i in 0..t.len() {
        all = all & is_small(t[i], v[i]);
    }
    all
}

// The same. Until the first entry is small the others are not looked at: the end rows are the last to
// settle, as a rule.
fn has_converged(t: &[f64], v: &[f64]) -> bool
    requires { (1 ≤ length t.now) × (length v.now ≡ length t.now) }
    ensures { result ≡ converged (length t.now) v.now t.now }
{
    if is_small(t[0], v[0]) {
        return all_small(t, v);
    }
    false
}

// Term 1, from v itself, and the sum with it; whether it has converged. `lower` is the entry of v
// before row i, as it was.
fn first_term(v: &mut [f64], rows: Rows<'_>, out: &mut [f64]) -> bool
    requires two_rows { 2 ≤ length v.old }
    requires sizes { (length v.old ≡ length rows.diag.now) × (length out.old ≡ length rows.diag.now) }
    ensures { let r = rows.entry in let n = length v.old in sum_of out.new v.new result
        ≡ with_term n v.old (slice_term r.half false (operator_over n r.diag.now r.left.now r.right.now) r.eta_dt 1 v.old) }
{
    let last = out.len() - 1;
    let mut lower = 0.0;
    for i in 0..last {
        let x = v[i];
        let t = rows.row_at(v, i, lower, v[i + 1]);
        out[i] = t;
        v[i] = x + t;
        lower = x;
    }
    let t = rows.last_row(v, last, lower);
    out[last] = t;
    v[last] = v[last] + t;
    has_converged(out, v)
}

// A later term in place of the one before it, and the sum with it; whether it has converged. The first
// and the last row stand apart, so that the rows between them read both neighbours; `lower` is the
// entry of x before row i, as it was.
fn next_term(x: &mut [f64], rows: Rows<'_>, order: u32, v: &mut [f64]) -> bool
    requires two_rows { 2 ≤ length x.old }
    requires sizes { (length x.old ≡ length rows.diag.now) × (length v.old ≡ length rows.diag.now) }
    ensures { let r = rows.entry in let n = length x.old in sum_of x.new v.new result
        ≡ with_term n v.old (slice_term r.half r.plain (operator_over n r.diag.now r.left.now r.right.now) r.eta_dt order x.old) }
{
    let inv = 1.0 / f64::from(order);
    let last = x.len() - 1;
    let first = rows.row_at(x, 0, 0.0, x[1]) * inv;
    let mut lower = x[0];
    for i in 1..last {
        let centre = x[i];
        let beside = rows.beside(i, lower, x[i + 1]);
        let t = (rows.eta_dt * beside - rows.diag[i] * centre) * inv;
        x[i] = t;
        v[i] = v[i] + t;
        lower = centre;
    }
    let end = rows.last_row(x, last, lower) * inv;
    x[last] = end;
    v[last] = v[last] + end;
    x[0] = first;
    v[0] = v[0] + first;
    has_converged(x, v)
}

// The work of `taylor_step` over slices. Nothing is copied: term 1 comes from v itself, and each later
// one takes the place of the one before it in `term`.
fn taylor_rows(v: &mut [f64], rows: Rows<'_>, term: &mut [f64]) -> bool
    requires two_rows { 2 ≤ length v.old }
    requires sizes { (length v.old ≡ length rows.diag.now) × (length term.old ≡ length rows.diag.now) }
    ensures { let r = rows.entry in sum_of term.new v.new result
        ≡ series_over r.half r.plain (operator_over (length v.old) r.diag.now r.left.now r.right.now) r.eta_dt v.old }
{
    if first_term(v, rows, term) {
        return true;
    }
    for order in 2..=MAX_TAYLOR_ORDER {
        if next_term(term, rows, order, v) {
            return true;
        }
    }
    false
}

// Whether there are at least two rows, and all slices are of one length.
fn step_fits(n: usize, diag: usize, left: usize, right: usize, term: usize) -> bool
    ensures { result ≡ five_sized n diag left right term }
{
    (2 <= n) & ((diag == n) & (left == n)) & ((right == n) & (term == n))
}

// One Taylor step of v: whether it has converged within 100 terms. The step is good where every sum is
// finite and positive besides, which the caller asks: a sum that is not finite never becomes so again,
// so that one test after the last term finds it. Else what v holds is of no use. `plain` says that the
// rows between the end rows take no factors. `term` is left with the last term. Slices whose lengths do
// not fit stay as they are. Two rows are taken into locals.
pub fn taylor_step(
    v: &mut [f64],
    diag: &[f64],
    eta_dt: f64,
    left: &[f64],
    right: &[f64],
    half: bool,
    plain: bool,
    term: &mut [f64],
) -> bool
    ensures { sum_of term.new v.new result ≡ step_over half plain v.old diag.now eta_dt left.now right.now term.old }
{
    if !step_fits(v.len(), diag.len(), left.len(), right.len(), term.len()) {
        return false;
    }
    let rows = Rows {
        diag,
        eta_dt,
        left,
        right,
        half,
        plain,
    };
    if half && v.len() == 2 {
        return crate::pair::taylor_pair(v, rows, term);
    }
    taylor_rows(v, rows, term)
}
