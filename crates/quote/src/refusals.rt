// The numbers that refuse, as specs/Refusals.antt of this layer and of those below have them.
pub use amounts::refusals::{BEYOND, LIMITS};
use elementary::Refusal;
pub use model::refusals::{DRIFT, MARKET};
pub use prices::refusals::CROSSED;

// Over the step cap, from the wrapper alone.
pub const CAPPED: Refusal = Refusal(12);
