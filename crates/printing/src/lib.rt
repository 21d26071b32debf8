// Prints a text for each record of a sheet: the one loop of the operators' programs that do so.
#![tactic(auto)]

mod output;

ghost use Rattle.std.specs.Prelude.{◌≡◌, ◌+◌, ◌<◌, ◌≤◌, length, Ok};
ghost use Rattle.feed.specs.Feed.{Fed};
ghost use Rattle.sheet.specs.Sheet.{most_bytes};
ghost use Rattle.sheet.specs.Kinds.{room_of, printed_as};
ghost use Rattle.sheet.specs.Fill.{filled_as, left_as};
ghost use Rattle.printing.specs.Printing.{Counted, OfSomeSheet};

use feed::first;
use output::{count_of, hand_on, none_done};
use sheet::Kind;
use std::fmt;
use std::io::{Error, Result as IoResult};

// One byte more than the longest sheet, which tells one that is longer.
const ROOM: usize = sheet::MOST_BYTES + 1;

// Why a sheet is not printed: standard input could not be read, or standard output did not take all.
#[derive(Drop)]
pub enum PrintError {
    NotRead(Error),
    NotWritten(Error),
}

impl fmt::Display for PrintError {
    fn fmt<W: fmt::Write>(&self, f: &mut fmt::Formatter<W>) -> fmt::Result {
        match self {
            PrintError::NotRead(error) => write!(f, "standard input: {error}"),
            PrintError::NotWritten(error) => write!(f, "standard output: {error}"),
        }
    }
}

// What a fill put into the buffer, and the place after it.
#[derive(Clone, Copy)]
struct Texts {
    count: usize,
    next: usize,
}

// Puts the texts from a place of a sheet on into a buffer that has the room.
fn fill(s: &[u8], at: usize, out: &mut [u8], kind: Kind) -> Texts
    requires { room_of kind ≤ length out.old }
    ensures filled { filled_as kind s.now at out.old ≡ Ok (result.count, result.next) }
    ensures out_after { out.new ≡ left_as kind s.now at out.old }
{
    match sheet::fill_texts(s, at, out, kind) {
        Ok((count, next)) => Texts { count, next },
        Err(_) => Texts { count: 0, next: at },
    }
}

// Writes what is printed for a sheet, many texts with one call, and answers how many bytes that were.
pub fn print_texts(rt: &HostRuntime, s: &[u8], kind: Kind) -> Result<usize, PrintError>
    ensures { Counted (length (printed_as kind s.now)) result }
{
    let mut out = io::large_buffer();
    let mut at: usize = 0;
    let mut done = none_done();
    // No `for`: each fill says where the next begins.
    while at < s.len() {
        let texts = fill(s, at, &mut out, kind);
        // Under `map_err` and `?` no proof sees which error is handed on, and `Counted` names it.
        match hand_on(rt, s, kind, done, first(&out, texts.count)) {
            Ok(more) => done = more,
            Err(error) => return Err(PrintError::NotWritten(error)),
        }
        at = texts.next;
    }
    Ok(count_of(done))
}

// Apart: its fact refuses a buffer of the longest sheet.
fn blank() -> [u8; ROOM]
    ensures { most_bytes + 1 ≡ length result }
{
    [0; ROOM]
}

// Reads a sheet into a buffer that tells one that is too long. Shared with resave it would be public, and
// its `requires` too.
fn read(rt: &HostRuntime, input: &mut [u8]) -> IoResult<usize>
    requires { most_bytes < length input.old }
    ensures { Fed (length input.old) result }
{
    feed::read_sheet(rt, input)
}

// Reads a sheet from standard input and writes what is printed for it: so many bytes.
pub fn print_sheet(rt: &HostRuntime, kind: Kind) -> Result<usize, PrintError>
    ensures { OfSomeSheet kind result }
{
    let mut input = blank();
    let n = read(rt, &mut input).map_err(PrintError::NotRead)?;
    print_texts(rt, first(&input, n), kind)
}
