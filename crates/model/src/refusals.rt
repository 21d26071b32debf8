// The numbers that refuse in this layer, as specs/Refusals.antt has them. 1, 2, 4 and 5 stand in the
// layers below.
use elementary::Refusal;

// Mid or volatility not positive.
pub const MARKET: Refusal = Refusal(3);

// A drift in a closed-form call.
pub const DRIFT: Refusal = Refusal(22);
