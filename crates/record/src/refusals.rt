// The numbers that refuse in this layer.
use elementary::Refusal;

// A record that ends inside itself.
pub const CUT_SHORT: Refusal = Refusal(6);

// A number of more than 8 groups, or of several groups whose last is zero.
pub const MALFORMED: Refusal = Refusal(7);

// A record's buffer under 88 bytes.
pub const SMALL_RECORD_BUFFER: Refusal = Refusal(20);
