// The line of an exact call: a letter, and fields with a space before each. Each writer leaves the
// buffer as it is where its text does not fit, and answers the place after it.
ghost use Rattle.std.specs.Prelude.{◌≡◌};
ghost use Rattle.harness.specs.Texts.{spaced, after_spaced, letter_c};
ghost use Rattle.desk.specs.Lines.{lined, after_lined, float_text, price_text, letter_q, quote_texts, counted_texts, cap_texts, exact_letter, exact_texts};

use harness::{bits_of, put, put_number, put_refusal, size_of};
use quote::{ExactQuotes, GlftQuotes, Price};

// A space and a text.
fn put_field(out: &mut [u8], at: usize, text: &[u8]) -> usize
    ensures out_after { out.new ≡ spaced out.old at text.now }
    ensures value { result ≡ after_spaced out.old at text.now }
{
    let next = put(out, at, b" ");
    put(out, next, text)
}

// A space and a float's pattern in 16 hex digits, in lower case.
pub fn put_float(out: &mut [u8], at: usize, x: f64) -> usize
    ensures out_after { out.new ≡ spaced out.old at (float_text x) }
    ensures value { result ≡ after_spaced out.old at (float_text x) }
{
    let mut text = [0u8; 16];
    let k = io::hex(bits_of(x), 16, &mut text);
    put_field(out, at, &text[..k])
}

// A space and a price, of which no quote has a negative one.
fn put_price(out: &mut [u8], at: usize, p: Price) -> usize
    ensures out_after { out.new ≡ spaced out.old at (price_text p) }
    ensures value { result ≡ after_spaced out.old at (price_text p) }
{
    match p {
        Some(x) => put_number(out, at, size_of(x)),
        None => put_field(out, at, b"-"),
    }
}

// `Q`, bid and ask.
pub fn put_quotes(out: &mut [u8], start: usize, q: GlftQuotes) -> usize
    ensures out_after { out.new ≡ lined letter_q out.old start (quote_texts q) }
    ensures value { result ≡ after_lined letter_q out.old start (quote_texts q) }
{
    let bid = q.bid;
    let ask = q.ask;
    let mut at = put(out, start, b"Q");
    at = put_price(out, at, bid);
    put_price(out, at, ask)
}

// `Q`, bid, ask and the steps.
fn put_counted(out: &mut [u8], start: usize, q: GlftQuotes, steps: u32) -> usize
    ensures out_after { out.new ≡ lined letter_q out.old start (counted_texts q steps) }
    ensures value { result ≡ after_lined letter_q out.old start (counted_texts q steps) }
{
    let at = put_quotes(out, start, q);
    put_number(out, at, u64::from(steps))
}

// `C`, the steps needed, the budget left and the steps spent.
fn put_cap(out: &mut [u8], start: usize, needed: f64, budget: u32, steps: u32) -> usize
    ensures out_after { out.new ≡ lined letter_c out.old start (cap_texts needed budget steps) }
    ensures value { result ≡ after_lined letter_c out.old start (cap_texts needed budget steps) }
{
    let mut at = put(out, start, b"C");
    at = put_float(out, at, needed);
    at = put_number(out, at, u64::from(budget));
    put_number(out, at, u64::from(steps))
}

// The line of an exact call, without its end.
pub fn put_exact(out: &mut [u8], at: usize, a: ExactQuotes) -> usize
    ensures out_after { out.new ≡ lined (exact_letter a) out.old at (exact_texts a) }
    ensures value { result ≡ after_lined (exact_letter a) out.old at (exact_texts a) }
{
    match a {
        ExactQuotes::Quotes(q, steps) => put_counted(out, at, q, steps),
        ExactQuotes::OverStepCap(needed, budget, steps) => put_cap(out, at, needed, budget, steps),
        ExactQuotes::Refused(refusal) => put_refusal(out, at, refusal.0),
    }
}
