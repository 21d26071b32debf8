// The tridiagonal operator of the value vector's equation: its diagonal, and its factors by the offsets.
#![tactic(auto)]

mod diagonal;
mod factors;
mod reals;

pub use diagonal::{fill_shifted_diagonal, scale_diagonal};
pub use factors::{all_ones, past_last, set_factors};
pub use reals::magnitude;
