// One step of the exponential of the value vector's operator, by a Taylor series.
#![tactic(auto)]

mod pair;
pub mod refusals;
mod rows;
mod taylor;

pub use taylor::taylor_step;
