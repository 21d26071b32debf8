// The operator on a vector, row by row.
ghost use Rattle.std.specs.Prelude.{◌≡◌, ◌<◌, length};
ghost use Rattle.elementary.specs.Float.{◌⊕◌, ◌⊖◌, ◌⊗◌, 0ᶠ};
ghost use Rattle.operator.specs.Vectors.{at};
ghost use Rattle.operator.specs.Slices.{past};
ghost use Rattle.series.specs.Slices.{beside_of};

use operator::past_last;

// The operator B over the rows of a step: its diagonal and its factors, an entry for each row. `plain`
// says to leave the factors out between the end rows.
#[derive(Clone, Copy)]
pub(crate) struct Rows<'a> {
    pub(crate) diag: &'a [f64],
    pub(crate) eta_dt: f64,
    pub(crate) left: &'a [f64],
    pub(crate) right: &'a [f64],
    pub(crate) half: bool,
    pub(crate) plain: bool,
    ghost left_n: { length left.now ≡ length diag.now },
    ghost right_n: { length right.now ≡ length diag.now },
}

impl Rows<'_> {
    // Row i of B x, from the entries of x beside row i.
    pub(crate) fn row_at(self, x: &[f64], i: usize, lower: f64, upper: f64) -> f64
        requires { (i < length x.now) × (i < length self.diag.now) }
        ensures { let s = self.entry in result ≡ s.eta_dt ⊗ (at s.left.now i ⊗ lower ⊕ at s.right.now i ⊗ upper) ⊖ at s.diag.now i ⊗ at x.now i }
    {
        self.eta_dt * (self.left[i] * lower + self.right[i] * upper) - self.diag[i] * x[i]
    }

    // The last row of B x, from the entry of x before it. Past the centre stands what stands before it, and
    // its factor with it.
    pub(crate) fn last_row(self, x: &[f64], i: usize, lower: f64) -> f64
        requires { (i < length x.now) × (i < length self.diag.now) }
        ensures { let s = self.entry in
            result ≡ s.eta_dt ⊗ (at s.left.now i ⊗ lower ⊕ past s.half (at s.left.now i) (at s.right.now i) ⊗ past s.half lower 0ᶠ) ⊖ at s.diag.now i ⊗ at x.now i }
    {
        let lf = self.left[i];
        let rf = past_last(self.half, lf, self.right[i]);
        let upper = past_last(self.half, lower, 0.0);
        self.eta_dt * (lf * lower + rf * upper) - self.diag[i] * x[i]
    }

    // What the rows beside row i give it, through its factors, or plainly, without them: where these are 1.0
    // no product changes a bit.
    pub(crate) fn beside(self, i: usize, lower: f64, upper: f64) -> f64
        requires { i < length self.diag.now }
        ensures { let s = self.entry in result ≡ beside_of s.plain (at s.left.now i) (at s.right.now i) lower upper }
    {
        if self.plain {
            return lower + upper;
        }
        self.left[i] * lower + self.right[i] * upper
    }
}
