// Writes the line of an answer. Each writer writes its text at the start of the slice that it is
// lent, answers how many bytes that took, and leaves the others as they were.
ghost use Rattle.std.specs.Prelude.{◌≡◌, [], ◌∷◌, ◌<◌, ◌≤◌, length};
ghost use Rattle.lines.specs.Lines.{glyph, digits, places, count, price, signed, side, hex, joined, quotes_line, cap_line, refusal_line, answer_line, least_room, line_for, wrote, text_left};
ghost use Rattle.lines.specs.Inner.{most_side};
ghost use Rattle.buffers.specs.Over.{over};

use crate::refusals::SMALL_BUFFER;
use elementary::Refusal;
use quote::{BILLION, ExactQuotes, GlftQuotes, Price};

// The least line buffer: no line is longer.
pub const LEAST_ROOM: usize = 64;

// How many decimal digits n has.
fn count_places(n: u64) -> usize
    ensures { result ≡ places n }
{
    let mut k: usize = 1;
    let mut rest = n;
    // No `for`: how many digits there are shows on the way.
    while rest >= 10 {
        rest /= 10;
        k += 1;
    }
    k
}

// A digit, `0` to `9` and `A` to `F`.
fn digit(d: u64) -> u8
    requires { d < 16 }
    ensures { result ≡ glyph d }
{
    if d < 10 {
        return b'0' + d as u8;
    }
    b'A' - 10 + d as u8
}

// The last k digits of n in a base.
fn write_digits(out: &mut [u8], base: u64, n: u64, k: usize)
    requires base_fits { (1 < base) × (base ≤ 16) }
    requires room { k ≤ length out.old }
    ensures { out.new ≡ over (digits base k n) out.old }
{
    let mut rest = n;
    for i in (0..k).rev() {
        out[i] = digit(rest % base);
        rest /= base;
    }
}

// A count in decimal digits.
fn write_count(out: &mut [u8], n: u64) -> usize
    requires { length (count n) ≤ length out.old }
    ensures out_after { out.new ≡ over (count n) out.old }
    ensures value { result ≡ length (count n) }
{
    let k = count_places(n);
    write_digits(out, 10, n, k);
    k
}

// Billionths with nine decimals.
fn write_price(out: &mut [u8], n: u64) -> usize
    requires { length (price n) ≤ length out.old }
    ensures out_after { out.new ≡ over (price n) out.old }
    ensures value { result ≡ length (price n) }
{
    let k = write_count(out, n / BILLION);
    out[k] = b'.';
    let at = k + 1;
    write_digits(&mut out[at..], 10, n, 9);
    at + 9
}

// A price, with `-` before it where it is below zero.
fn write_signed(out: &mut [u8], z: i64) -> usize
    requires { most_side ≤ length out.old }
    ensures out_after { out.new ≡ over (signed z) out.old }
    ensures value { (result ≡ length (signed z)) × (result ≤ most_side) }
{
    if z < 0 {
        out[0] = b'-';
        return write_price(&mut out[1..], z.unsigned_abs()) + 1;
    }
    write_price(out, z.unsigned_abs())
}

// A side: its price, or `-`.
fn write_side(out: &mut [u8], p: Price) -> usize
    requires { most_side ≤ length out.old }
    ensures out_after { out.new ≡ over (side p) out.old }
    ensures value { (result ≡ length (side p)) × (result ≤ most_side) }
{
    match p {
        Some(z) => write_signed(out, z),
        None => {
            out[0] = b'-';
            1
        }
    }
}

// A float's 16 hex digits.
fn write_hex(out: &mut [u8], x: f64) -> usize
    requires { 16 ≤ length out.old }
    ensures out_after { out.new ≡ over (hex x) out.old }
    ensures value { result ≡ 16 }
{
    write_digits(out, 16, elementary::bits_of(x), 16);
    16
}

fn write_quotes(line: &mut [u8], q: GlftQuotes, steps: u32) -> usize
    requires { least_room ≤ length line.old }
    ensures line_after { line.new ≡ over (quotes_line q steps) line.old }
    ensures value { result ≡ length (quotes_line q steps) }
{
    let bid = q.bid;
    let ask = q.ask;
    line[0] = b'Q';
    line[1] = b' ';
    let mut at: usize = 2;
    at += write_side(&mut line[at..], bid);
    line[at] = b' ';
    at += 1;
    at += write_side(&mut line[at..], ask);
    line[at] = b' ';
    at += 1;
    at += write_count(&mut line[at..], steps as u64);
    line[at] = b'\n';
    at + 1
}

pub(crate) fn write_cap(line: &mut [u8], need: f64, budget: u32) -> usize
    requires { length (cap_line need budget) ≤ length line.old }
    ensures line_after { line.new ≡ over (cap_line need budget) line.old }
    ensures value { result ≡ length (cap_line need budget) }
{
    line[0] = b'C';
    line[1] = b' ';
    let mut at: usize = 2;
    at += write_hex(&mut line[at..], need);
    line[at] = b' ';
    at += 1;
    at += write_count(&mut line[at..], budget as u64);
    line[at] = b'\n';
    at + 1
}

// A letter and a count.
pub(crate) fn write_counted(line: &mut [u8], letter: u8, n: u64) -> usize
    requires { length (joined (letter ∷ []) (count n ∷ [])) ≤ length line.old }
    ensures line_after { line.new ≡ over (joined (letter ∷ []) (count n ∷ [])) line.old }
    ensures value { result ≡ length (joined (letter ∷ []) (count n ∷ [])) }
{
    line[0] = letter;
    line[1] = b' ';
    let mut at: usize = 2;
    at += write_count(&mut line[at..], n);
    line[at] = b'\n';
    at + 1
}

// Writes the line of a refusal, and answers how many bytes it takes: refused by 8, which leaves the buffer
// as it is.
pub fn write_refusal(line: &mut [u8], refusal: Refusal) -> Result<usize, Refusal>
    ensures value { result ≡ wrote (line_for (refusal_line refusal.0) line.old) }
    ensures line_after { line.new ≡ text_left (line_for (refusal_line refusal.0) line.old) line.old }
{
    if line.len() < LEAST_ROOM {
        return Err(SMALL_BUFFER);
    }
    Ok(write_counted(line, b'R', refusal.0 as u64))
}

// Writes the line of any answer, and answers how many bytes it takes: refused by 8, which leaves the
// buffer as it is.
pub fn write_answer(line: &mut [u8], answer: ExactQuotes) -> Result<usize, Refusal>
    ensures value { result ≡ wrote (line_for (answer_line answer) line.old) }
    ensures line_after { line.new ≡ text_left (line_for (answer_line answer) line.old) line.old }
{
    if line.len() < LEAST_ROOM {
        return Err(SMALL_BUFFER);
    }
    match answer {
        ExactQuotes::Quotes(q, steps) => Ok(write_quotes(line, q, steps)),
        ExactQuotes::OverStepCap(need, budget, _) => Ok(write_cap(line, need, budget)),
        ExactQuotes::Refused(refusal) => Ok(write_counted(line, b'R', refusal.0 as u64)),
    }
}
