// Reads float patterns from standard input, eight bytes each, lowest first, and writes a line for
// each: the pattern, and the five elementary functions of the float. A value is 16 upper-case hex
// digits, and a refusal is `R5`. The first line is that of a NaN.
#![tactic(auto)]

// A pattern has 8 bytes, 8,192 are read, and a line has at most six fields of 16 digits, five spaces, and
// its end.
const SIZES: harness::Sizes = harness::Sizes {
    size: 8,
    block: 65536,
    line: 102,
};

// A NaN's pattern.
const NAN: u64 = 0x7FF8000000000000;

// A space and an answer.
fn put_real(out: &mut [u8], at: usize, r: Option<f64>) -> usize {
    let next = harness::put(out, at, b" ");
    match r {
        Some(x) => harness::put_hex(out, next, harness::bits_of(x)),
        None => harness::put(out, next, b"R5"),
    }
}

// The float itself, which a NaN is by its name.
fn put_float(out: &mut [u8], at: usize, x: f64) -> usize {
    if x == x {
        return harness::put_hex(out, at, harness::bits_of(x));
    }
    harness::put(out, at, b"NAN")
}

// The five answers.
fn put_answers(out: &mut [u8], start: usize, x: f64) -> usize {
    let mut at = put_real(out, start, elementary::ln(x));
    at = put_real(out, at, elementary::ln_1p(x));
    at = put_real(out, at, elementary::exp(x));
    at = put_real(out, at, elementary::sqrt(x));
    put_real(out, at, elementary::ceil(x))
}

// The line of a pattern.
fn put_line(out: &mut [u8], start: usize, bits: u64) -> usize {
    let x = harness::float_of(bits);
    let mut at = put_float(out, start, x);
    at = put_answers(out, at, x);
    harness::put(out, at, b"\n")
}

// What the run of records calls.
#[derive(Drop)]
struct Program;

impl harness::PutLine for Program {
    ghost puts = { λ _ _ _ _ _ _ _ _. Unit {0} };

    fn put_line(&mut self, out: &mut [u8], used: usize, s: &[u8], at: usize) -> usize {
        put_line(out, used, harness::word_at(s, at, 0))
    }
}

fn main() {
    let mut input = io::large_buffer();
    let n = io::read_full(harness::STDIN, &mut input);
    let mut out = io::large_buffer();
    let at = put_line(&mut out, 0, NAN);
    let patterns = harness::first(&input, n);
    let used = harness::put_lines(&mut out, at, patterns, SIZES, &mut Program);
    io::write_all(harness::STDOUT, harness::first(&out, used));
}
