// The logarithm of 2 in two parts, for LN and EXP. HI has 32 binary digits, so that a whole number of up to 21 digits
// times it is exact; LO is the rest.
pub(crate) const HI: f64 = 0.6931471803691238;

pub(crate) const LO: f64 = 1.9082149292705877e-10;
