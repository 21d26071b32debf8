// The number that refuses in this layer.
use elementary::Refusal;

// A line buffer under 64 bytes.
pub const SMALL_BUFFER: Refusal = Refusal(8);
