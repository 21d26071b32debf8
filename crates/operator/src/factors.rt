// The factors of the operator, by the offsets. Every slice has an entry for each row, or, where `half`
// is true, for each row up to the centre: the others mirror them. Slices whose lengths do not fit stay
// as they are.
ghost use Rattle.std.specs.Prelude.{◌≡◌, ◌<◌, ◌&&◌, length};
ghost use Rattle.elementary.specs.Float.{finite};
ghost use Rattle.operator.specs.Vectors.{every};
ghost use Rattle.operator.specs.Operator.{left_at, right_or};
ghost use Rattle.operator.specs.Slices.{both_sized, past, factors_fit, left_over, right_over, both_fine, ones_between};

// The left factor of row i.
fn left_factor(o: &[f64], i: usize) -> f64
    requires { i < length o.now }
    ensures { result ≡ left_at o.now i }
{
    if i == 0 {
        return 0.0;
    }
    crate::reals::factor(o[i - 1], o[i])
}

// The right factor of row i: `last` for the last row.
fn right_factor(o: &[f64], i: usize, last: f64) -> f64
    requires { i < length o.now }
    ensures { result ≡ right_or (length o.now) o.now i last }
{
    if i + 1 < o.len() {
        return crate::reals::factor(o[i + 1], o[i]);
    }
    last
}

// What stands past the last row: past the centre what stands before it, past the end as given.
pub fn past_last(half: bool, lower: f64, end: f64) -> f64
    ensures { result ≡ past half lower end }
{
    if half { lower } else { end }
}

// Whether two lengths are n.
fn both_sized(n: usize, a: usize, b: usize) -> bool
    ensures { result ≡ both_sized n a b }
{
    (a == n) & (b == n)
}

// The factors of every row, and whether all are finite.
pub fn set_factors(o: &[f64], left: &mut [f64], right: &mut [f64], half: bool) -> bool
    ensures left_after { left.new ≡ left_over o.now left.old right.old }
    ensures right_after { right.new ≡ right_over half o.now left.old right.old }
    ensures value { result ≡ (factors_fit o.now left.old right.old && both_fine (length o.now) left.new right.new) }
{
    if !both_sized(o.len(), left.len(), right.len()) {
        return false;
    }
    let mut all = true;
    for i in 0..o.len() {
        let lf = left_factor(o, i);
        let rf = right_factor(o, i, past_last(half, lf, 0.0));
        left[i] = lf;
        right[i] = rf;
        all = all & (elementary::is_finite(lf) & elementary::is_finite(rf));
    }
    all
}

// Whether both factors of every row between the end rows are 1.0, as they are until the first
// rebalancing.
pub fn all_ones(left: &[f64], right: &[f64]) -> bool
    ensures { result ≡ ones_between left.now right.now }
{
    if right.len() != left.len() {
        return false;
    }
    let mut all = true;
    for i in 1..left.len().saturating_sub(1) {
        all = all & ((left[i] == 1.0) & (right[i] == 1.0));
    }
    all
}
