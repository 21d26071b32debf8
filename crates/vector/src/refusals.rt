// The numbers that refuse in this layer, as specs/Refusals.antt has them. 5 stands with the elementary
// functions, 11 with the series, 1 with the plan.
pub use plan::refusals::CONFIGURATION;
pub use series::refusals::NUMERICAL;
