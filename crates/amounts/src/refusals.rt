// The numbers that refuse what is beyond a limit, as specs/Refusals.antt has them. 11 stands in a layer
// below.
use elementary::Refusal;

// An amount or a time beyond its limit.
pub const LIMITS: Refusal = Refusal(2);

// A rounded distance or a price beyond the limit.
pub const BEYOND: Refusal = Refusal(13);
