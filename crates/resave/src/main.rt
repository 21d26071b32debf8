// Reads a sheet from standard input and writes each record that the reader takes, anew from its numbers, one after the
// other: the good part of a damaged sheet. Input that cannot be read, or output that cannot be written, is told on
// standard error.
#![tactic(auto)]

ghost use Rattle.std.specs.Prelude.{◌≡◌, ◌+◌, ◌<◌, ◌≤◌, length, take};
ghost use Rattle.feed.specs.Feed.{Fed};
ghost use Rattle.record.specs.Record.{read_record};
ghost use Rattle.buffers.specs.Over.{over};
ghost use Rattle.sheet.specs.Sheet.{most_bytes};
ghost use Rattle.record.specs.Save.{record_room};
ghost use Rattle.resave.specs.Resave.{piece, onward, kept};

use feed::first;
use sheet::{MOST_BYTES, RECORD_ROOM, RecordAnswer};
use std::io::Result;

// What is kept is no longer than the sheet, and behind it there is room for any record.
const ROOM: usize = MOST_BYTES + RECORD_ROOM;

// One byte more than the longest sheet, which tells one that is longer.
const INPUT: usize = MOST_BYTES + 1;

// The bytes that were put into the buffer, and the place where reading goes on.
#[derive(Clone, Copy)]
struct Kept {
    count: usize,
    next: usize,
}

// Saves the record at a place of a sheet, if the reader takes it, at the start of a buffer that has the room.
fn keep_record(s: &[u8], at: usize, out: &mut [u8]) -> Kept
    requires { record_room ≤ length out.old }
    ensures count_value { result.count ≡ length (piece (read_record s.now at)) }
    ensures next_value { result.next ≡ onward (length s.now) (read_record s.now at) }
    ensures out_after { out.new ≡ over (piece (read_record s.now at)) out.old }
{
    match sheet::read_record(s, at) {
        RecordAnswer::Record(r, next) => match sheet::save_record(r, out) {
            Ok(count) => Kept { count, next },
            Err(_) => Kept { count: 0, next },
        },
        RecordAnswer::Skipped(_, next) => Kept { count: 0, next },
        RecordAnswer::Refused(_) => Kept {
            count: 0,
            next: s.len(),
        },
    }
}

// Puts what is kept of a sheet into a buffer, and answers how many bytes that takes.
fn keep(s: &[u8], out: &mut [u8]) -> usize
    requires { most_bytes + record_room ≤ length out.old }
    ensures out_after { take result out.new ≡ kept s.now }
    ensures upper_bound { result ≤ most_bytes }
{
    if s.len() > MOST_BYTES {
        return 0;
    }
    let mut n: usize = 0;
    let mut at: usize = 0;
    // No `for`: each record says where the next begins.
    while at < s.len() {
        let k = keep_record(s, at, &mut out[n..]);
        n += k.count;
        at = k.next;
    }
    n
}

// Writes what is kept of a sheet, where standard output takes it.
fn write_kept(rt: &HostRuntime, s: &[u8]) -> Result<()> {
    let mut out = [0; ROOM];
    let n = keep(s, &mut out);
    rt.write_all(first(&out, n))
}

// Apart, and not shared with the printing of texts: its fact refuses a buffer of the longest sheet.
fn blank_input() -> [u8; INPUT]
    ensures { most_bytes + 1 ≡ length result }
{
    [0; INPUT]
}

// Reads a sheet into a buffer that tells one that is too long. Shared with the printing of texts it would be
// public, and its `requires` too.
fn read(rt: &HostRuntime, input: &mut [u8]) -> Result<usize>
    requires { most_bytes < length input.old }
    ensures { Fed (length input.old) result }
{
    feed::read_sheet(rt, input)
}

fn main(rt: HostRuntime) {
    let mut input = blank_input();
    match read(&rt, &mut input) {
        Ok(n) => {
            if let Err(error) = write_kept(&rt, first(&input, n)) {
                let _ = eprintln!(rt; "resave: standard output: {error}");
            }
        }
        Err(error) => {
            let _ = eprintln!(rt; "resave: standard input: {error}");
        }
    }
}
