// The numbers that refuse in this layer, as specs/Refusals.antt has them. 5 stands with the elementary
// functions, 11 with the series.
use elementary::Refusal;
pub use series::refusals::NUMERICAL;

// The bound is not 1 to 200.
pub const CONFIGURATION: Refusal = Refusal(1);
