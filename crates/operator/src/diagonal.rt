// The diagonal of the operator. A slice whose length does not fit stays as it is.
ghost use Rattle.std.specs.Prelude.{◌≡◌, ◌<◌, ◌&&◌, length};
ghost use Rattle.elementary.specs.Float.{finite};
ghost use Rattle.operator.specs.Vectors.{at, every};
ghost use Rattle.operator.specs.Slices.{diagonal_fits, diagonal_over, scaled_over};

// The diagonal a second: alpha q^2 - beta q + 2 eta, for as many values of q from -bound up as the slice
// has entries, where the bound has so many rows; and whether all of it is finite.
pub fn fill_shifted_diagonal(alpha: f64, beta: f64, eta: f64, bound: u32, diag: &mut [f64]) -> bool
    ensures diag_after { diag.new ≡ diagonal_over bound alpha beta eta diag.old }
    ensures value { result ≡ (diagonal_fits bound diag.old && every (length diag.old) (λ i. finite (at diag.new i))) }
{
    if 2 * (bound as usize) + 1 < diag.len() {
        return false;
    }
    let mut all = true;
    let mut q = 0.0 - f64::from(bound);
    for i in 0..diag.len() {
        let d = ((alpha * q) * q - beta * q) + 2.0 * eta;
        diag[i] = d;
        all = all & elementary::is_finite(d);
        q = q + 1.0;
    }
    all
}

// The diagonal of one step.
pub fn scale_diagonal(diag_s: &[f64], dt: f64, diag: &mut [f64])
    ensures { diag.new ≡ scaled_over diag_s.now dt diag.old }
{
    if diag.len() != diag_s.len() {
        return;
    }
    for i in 0..diag_s.len() {
        diag[i] = diag_s[i] * dt;
    }
}
