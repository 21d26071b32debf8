// The numbers that refuse in this layer, as specs/Refusals.antt has them.
use elementary::Refusal;

// A table of fewer than 4,096 numbers.
pub const SMALL_TABLE: Refusal = Refusal(23);

// A count of filled rows, a next row, or a filled row's steps, bound or length that no call leaves.
pub const BAD_TABLE: Refusal = Refusal(24);
