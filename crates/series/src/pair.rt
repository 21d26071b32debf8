// One Taylor step for two rows, the end row and the centre: they stand for the three rows of bound 1.
// What `taylor::taylor_rows` does over slices is done here in locals, so that no term goes through memory.
ghost use Rattle.std.specs.Prelude.{◌≡◌, length, true, false};
ghost use Rattle.elementary.specs.Float.{◌⊗◌};
ghost use Rattle.operator.specs.Vectors.{tab};
ghost use Rattle.series.specs.Series.{operator_over};
ghost use Rattle.series.specs.Slices.{slice_row, slice_term, sum_of, with_term, series_over};
ghost use Rattle.series.specs.Pairs.{pair_of, operator_of, partial_of};

use crate::rows::Rows;
use crate::taylor::MAX_TAYLOR_ORDER;

// The entries of the end row and of the centre.
#[derive(Clone, Copy)]
struct Pair {
    end: f64,
    centre: f64,
}

// The operator over two rows, with a step's diagonal. The centre's left factor stands for both of its.
#[derive(Clone, Copy)]
struct TwoRows {
    eta_dt: f64,
    diag: Pair,
    left: Pair,
    right: Pair,
}

// A series so far: its last term, the sum with it, and whether it has converged.
// A flag and no enum, which is no plainer: `taylor_pair` hands on the term and the sum either way.
#[derive(Clone, Copy)]
struct Partial {
    term: Pair,
    sum: Pair,
    settled: bool,
}

fn pair_of(s: &[f64]) -> Pair
    requires { length s.now ≡ 2 }
    ensures { pair_of result ≡ s.now }
{
    Pair {
        end: s[0],
        centre: s[1],
    }
}

// A factor times x. With a factor of 1.0 no product changes a bit, and none is made.
fn times(factor: f64, x: f64) -> f64
    ensures { result ≡ factor ⊗ x }
{
    if factor == 1.0 {
        return x;
    }
    factor * x
}

// The operator on x. Beside the end row stand 0.0 and the centre, and beside the centre, on both sides,
// the end row.
fn applied(op: TwoRows, x: Pair) -> Pair
    ensures { pair_of result ≡ tab 2 (slice_row true false (operator_of op) op.eta_dt (pair_of x)) }
{
    let upper = times(op.right.end, x.centre);
    let either = times(op.left.centre, x.end);
    Pair {
        end: op.eta_dt * (op.left.end * 0.0 + upper) - op.diag.end * x.end,
        centre: op.eta_dt * (either + either) - op.diag.centre * x.centre,
    }
}

// A term, the sum with it, and whether that has converged.
fn with_term(term: Pair, sum: Pair) -> Partial
    ensures { partial_of result ≡ with_term 2 (pair_of sum) (pair_of term) }
{
    let end = sum.end + term.end;
    let centre = sum.centre + term.centre;
    let settled = crate::taylor::is_small(term.end, end)
        & crate::taylor::is_small(term.centre, centre);
    Partial {
        term,
        sum: Pair { end, centre },
        settled,
    }
}

// Term 1, from v itself.
fn first_pair(op: TwoRows, v: Pair) -> Partial
    ensures { partial_of result ≡ with_term 2 (pair_of v) (slice_term true false (operator_of op) op.eta_dt 1 (pair_of v)) }
{
    with_term(applied(op, v), v)
}

// A later term, from the one before it.
fn next_pair(op: TwoRows, s: Partial, order: u32) -> Partial
    ensures { partial_of result ≡ with_term 2 (pair_of s.sum) (slice_term true false (operator_of op) op.eta_dt order (pair_of s.term)) }
{
    let inv = 1.0 / f64::from(order);
    let x = applied(op, s.term);
    let term = Pair {
        end: x.end * inv,
        centre: x.centre * inv,
    };
    with_term(term, s.sum)
}

// The series from v, at its end.
fn sum_series(op: TwoRows, v: Pair) -> Partial
    ensures { partial_of result ≡ series_over true false (operator_of op) op.eta_dt (pair_of v) }
{
    let mut s = first_pair(op, v);
    for order in 2..=MAX_TAYLOR_ORDER {
        if s.settled {
            return s;
        }
        s = next_pair(op, s, order);
    }
    s
}

// The work of `taylor::taylor_step` over two rows, up to the centre.
pub(crate) fn taylor_pair(v: &mut [f64], rows: Rows<'_>, term: &mut [f64]) -> bool
    requires { (length v.old ≡ 2) × (length rows.diag.now ≡ 2) × (length term.old ≡ 2) }
    ensures { let r = rows.entry in sum_of term.new v.new result
        ≡ series_over true false (operator_over 2 r.diag.now r.left.now r.right.now) r.eta_dt v.old }
{
    let op = TwoRows {
        eta_dt: rows.eta_dt,
        diag: pair_of(rows.diag),
        left: pair_of(rows.left),
        right: pair_of(rows.right),
    };
    let s = sum_series(op, pair_of(v));
    v[0] = s.sum.end;
    v[1] = s.sum.centre;
    term[0] = s.term.end;
    term[1] = s.term.centre;
    s.settled
}
