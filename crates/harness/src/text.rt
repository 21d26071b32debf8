// Texts placed into a buffer that is lent. Each writer leaves the buffer as it is where its text does
// not fit, and answers the place after it.
ghost use Rattle.std.specs.Prelude.{◌≡◌, pos, nat_abs, length};
ghost use Rattle.std.specs.Int.Signed.{lt_z};
ghost use Rattle.std.specs.Float.{binary64};
ghost use Rattle.std.specs.Float.Ieee.{to_bits};
ghost use Rattle.harness.specs.Texts.{fits, placed, after, spaced, after_spaced, letter_r, lettered, after_lettered, capped, after_capped, signed_by, after_signed, glyph, hex, count};

use elementary::bits_of;

// Do n bytes fit from a place on?
pub(crate) fn has_room(out: &[u8], at: usize, n: usize) -> bool
    ensures { result ≡ fits out.now at n }
{
    n <= out.len() && at <= out.len() - n
}

// A text as it is.
pub fn put(out: &mut [u8], at: usize, text: &[u8]) -> usize
    ensures out_after { out.new ≡ placed out.old at text.now }
    ensures value { result ≡ after out.old at text.now }
{
    if !has_room(out, at, text.len()) {
        return at;
    }
    let end = at + text.len();
    out[at..end].copy_from_slice(text);
    end
}

// A count in decimal digits.
pub fn put_count(out: &mut [u8], at: usize, n: u64) -> usize
    ensures out_after { out.new ≡ placed out.old at (count n) }
    ensures value { result ≡ after out.old at (count n) }
{
    let mut text = [0u8; 20];
    let k = io::decimal(n, &mut text);
    put(out, at, &text[..k])
}

// The lowest hex digit of a number, `0` to `9` and `A` to `F`. That of lines is private, and takes a digit.
pub fn digit(n: u64) -> u8
    ensures { result ≡ glyph n }
{
    let d = n % 16;
    if d < 10 {
        return 48 + d as u8;
    }
    55 + d as u8
}

// A word in 16 hex digits.
pub fn put_hex(out: &mut [u8], at: usize, bits: u64) -> usize
    ensures out_after { out.new ≡ placed out.old at (hex 16 bits) }
    ensures value { result ≡ after out.old at (hex 16 bits) }
{
    if !has_room(out, at, 16) {
        return at;
    }
    for i in 0..16 {
        out[at + i] = digit(bits >> (60 - 4 * i));
    }
    at + 16
}

// A space and a count.
pub fn put_number(out: &mut [u8], at: usize, n: u64) -> usize
    ensures out_after { out.new ≡ spaced out.old at (count n) }
    ensures value { result ≡ after_spaced out.old at (count n) }
{
    let next = put(out, at, b" ");
    put_count(out, next, n)
}

// `R`, a space and a refusal's number.
pub fn put_refusal(out: &mut [u8], at: usize, number: u8) -> usize
    ensures out_after { out.new ≡ lettered letter_r out.old at (count number) }
    ensures value { result ≡ after_lettered letter_r out.old at (count number) }
{
    let next = put(out, at, b"R");
    put_number(out, next, u64::from(number))
}

// A number in decimal digits, after a minus sign where it is negative.
pub fn put_signed(out: &mut [u8], at: usize, n: i64) -> usize
    ensures out_after { out.new ≡ signed_by (lt_z n (pos 0)) out.old at (count (nat_abs n)) }
    ensures value { result ≡ after_signed (lt_z n (pos 0)) out.old at (count (nat_abs n)) }
{
    if n < 0 {
        let next = put(out, at, b"-");
        return put_count(out, next, n.unsigned_abs());
    }
    put_count(out, at, n.unsigned_abs())
}

// A space and a float's pattern in 16 hex digits.
pub fn put_float(out: &mut [u8], at: usize, x: f64) -> usize
    ensures out_after { out.new ≡ spaced out.old at (hex 16 (to_bits binary64 x)) }
    ensures value { result ≡ after_spaced out.old at (hex 16 (to_bits binary64 x)) }
{
    let next = put(out, at, b" ");
    put_hex(out, next, bits_of(x))
}

// `C`, the steps needed and the budget left, with a space before each.
pub fn put_cap(out: &mut [u8], at: usize, needed: f64, budget: u32) -> usize
    ensures out_after { out.new ≡ capped out.old at (hex 16 (to_bits binary64 needed)) (count budget) }
    ensures value { result ≡ after_capped out.old at (hex 16 (to_bits binary64 needed)) (count budget) }
{
    let mut next = put(out, at, b"C");
    next = put_float(out, next, needed);
    put_number(out, next, u64::from(budget))
}
