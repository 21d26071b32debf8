// The number that refuses in this layer, as specs/Refusals.antt has it. 5 stands with the elementary
// functions.
use elementary::Refusal;

// The reckoning left the floats.
pub const NUMERICAL: Refusal = Refusal(11);
