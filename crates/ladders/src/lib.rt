// The ladder of a desk: a line for each of its lots.
#![tactic(auto)]

mod ladder;
pub mod refusals;

pub use ladder::{MOST_LADDER, write_ladder};
