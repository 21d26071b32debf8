// The text of an answer: a line.
#![tactic(auto)]

mod horizon;
mod line;
pub mod refusals;

pub use horizon::write_plan;
pub use line::{LEAST_ROOM, write_answer, write_refusal};
