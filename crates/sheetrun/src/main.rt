// Reads sheets from standard input, each after its length in three bytes, lowest first. Writes the
// lines of each, and after them a line `.`. A length above 65,537 ends the run; what is missing of the
// last sheet is zeros.
#![tactic(auto)]

use harness::{first, read_block};

// One byte more than the longest sheet.
const ROOM: usize = sheet::MOST_BYTES + 1;

// The bytes of a length.
const LENGTH: usize = 3;

// Writes the line at a place of a sheet, and answers the next place.
fn say_line(s: &[u8], at: usize) -> usize {
    let mut line = [0u8; sheet::LEAST_ROOM];
    match sheet::next_line(s, at, &mut line) {
        Ok(Some((n, next))) => {
            io::write_all(harness::STDOUT, first(&line, n));
            next
        }
        Ok(None) | Err(_) => s.len(),
    }
}

// Writes the lines of a sheet, of which it has no more than bytes; each says where the next begins.
fn say_lines(s: &[u8]) {
    let mut at: usize = 0;
    for _ in 0..s.len() {
        if at >= s.len() {
            return;
        }
        at = say_line(s, at);
    }
}

// Reads a length; where none is left, one that is too large.
fn read_length() -> usize {
    let mut bytes = [0u8; LENGTH];
    if read_block(&mut bytes, LENGTH) < LENGTH {
        return ROOM + 1;
    }
    harness::word_at(&bytes, 0, 0) as usize
}

// Reads a sheet and writes its lines; false where there is none.
fn run_sheet() -> bool {
    let n = read_length();
    if n > ROOM {
        return false;
    }
    let mut sheet = [0u8; ROOM];
    read_block(&mut sheet, n);
    say_lines(&sheet[..n]);
    io::write_all(harness::STDOUT, b".\n");
    true
}

fn main() {
    for _ in 0..harness::MANY {
        if !run_sheet() {
            return;
        }
    }
}
