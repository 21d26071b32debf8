// The number that refuses prices, as specs/Refusals.antt has it. 13 stands in the layer below.
use elementary::Refusal;

// Bid not positive, ask not positive, or bid not below ask.
pub const CROSSED: Refusal = Refusal(14);
