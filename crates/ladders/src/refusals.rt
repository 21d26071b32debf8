// The number that refuses in this layer.
use elementary::Refusal;

// A ladder's buffer under 64 * (2 * bound + 1) bytes.
pub const SMALL_LADDER_BUFFER: Refusal = Refusal(21);
