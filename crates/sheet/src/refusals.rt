// The number that refuses in this layer.
use elementary::Refusal;

// A sheet over 65,536 bytes.
pub const LONG_SHEET: Refusal = Refusal(9);
