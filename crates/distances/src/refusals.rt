// The number that refuses in this layer, as specs/Refusals.antt has it. 1, 5 and 11 stand in the
// layers below.
use elementary::Refusal;

// More lots than the bound in magnitude.
pub const HOLDING: Refusal = Refusal(4);
