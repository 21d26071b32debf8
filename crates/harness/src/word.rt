// Words of eight bytes, and the numbers that they stand for.
ghost use Rattle.std.specs.Prelude.{◌≡◌, ◌+◌, min, get_or};
ghost use Rattle.harness.specs.Words.{word, signed};

use std::array;

// The largest bound that 32 bits hold.
pub const LARGEST_BOUND: u64 = 0xFFFFFFFF;

// The byte at + i + j, 0 past the end.
fn byte_at(s: &[u8], at: usize, i: usize, j: usize) -> u8
    ensures { result ≡ get_or s.now (at + i + j) 0 }
{
    let place = at.saturating_add(i).saturating_add(j);
    s.get(place).copied().unwrap_or(0)
}

// The number of eight bytes, lowest first: those from i places after a place on. Where all eight are there
// they are one load: with a test of each `countrun` took twice as long.
pub fn word_at(s: &[u8], at: usize, i: usize) -> u64
    ensures { result ≡ word s.now (at + i) }
{
    let left = s.len().saturating_sub(at);
    if 8 <= left && i <= left - 8 {
        let place = at + i;
        return u64::from_le_bytes(array::from_fn(|j| s[place + j]));
    }
    u64::from_le_bytes(array::from_fn(|j| byte_at(s, at, i, j)))
}

// The number of a word in two's complement.
pub fn signed_of(word: u64) -> i64
    ensures { result ≡ signed word }
{
    word.cast_signed()
}

// A bound as 32 bits hold it. One that they do not hold is beyond every bound that is taken, and so
// is the largest that they hold.
pub fn bound_of(word: u64) -> u32
    ensures { result ≡ min word 0xFFFFFFFF }
{
    u32::try_from(word).unwrap_or(u32::MAX)
}
