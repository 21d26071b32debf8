// The text that stands for a record of a sheet: its line, its ladder or its plan.
ghost use Rattle.std.specs.Prelude.{◌≡◌, ◌≤◌, length};
ghost use Rattle.lines.specs.Lines.{least_room, has_room, wrote, text_left};
ghost use Rattle.sheet.specs.Sheet.{answered, left};
ghost use Rattle.sheet.specs.Kinds.{is_flat};
ghost use Rattle.sheet.specs.Inner.{record_text, text_in, stepped_by};

use crate::horizon::write_record_plan;
use crate::ladder::write_record_ladder;
use crate::line::{LineAnswer, MOST_BYTES, write_record};
use crate::refusals::LONG_SHEET;
use elementary::Refusal;
use lines::refusals::SMALL_BUFFER;
use lines::{LEAST_ROOM, write_refusal};
use record::{Record, RecordAnswer, read_as};

// The kinds of text. An enum and no trait: `printed_as`, `filled_as` and their statements speak of a kind.
#[derive(Clone, Copy)]
pub enum Kind {
    Line,
    Ladder,
    Plan,
}

// Whether a record is read without its holding: for its ladder alone.
fn is_flat(kind: Kind) -> bool
    ensures { result ≡ is_flat kind }
{
    matches!(kind, Kind::Ladder)
}

// A record's text. Its writers stay three functions: their libraries' answers are of three types, so one
// function would take the calculation and the writer as closures, and be no plainer.
fn write_text(out: &mut [u8], r: Record, kind: Kind) -> Result<usize, Refusal>
    requires { least_room ≤ length out.old }
    ensures value { result ≡ wrote (record_text kind (length out.old) r) }
    ensures out_after { out.new ≡ text_left (record_text kind (length out.old) r) out.old }
{
    match kind {
        Kind::Line => write_record(out, r),
        Kind::Ladder => write_record_ladder(out, r),
        Kind::Plan => write_record_plan(out, r),
    }
}

// A step's answer, by that of a writer.
fn stepped(written: Result<usize, Refusal>, next: usize) -> LineAnswer
    ensures { result ≡ stepped_by written next }
{
    Ok(Some((written?, next)))
}

// Writes what stands for the record at a place of a sheet, a text of some kind: refused by 8 and 21,
// which leaves the buffer as it is.
pub(crate) fn next_text(sheet: &[u8], at: usize, out: &mut [u8], kind: Kind) -> LineAnswer
    ensures value { result ≡ answered (has_room out.old) (text_in kind (length out.old) sheet.now at) }
    ensures out_after { out.new ≡ left (has_room out.old) (text_in kind (length out.old) sheet.now at) out.old }
{
    if out.len() < LEAST_ROOM {
        return Err(SMALL_BUFFER);
    }
    if at >= sheet.len() {
        return Ok(None);
    }
    if sheet.len() > MOST_BYTES {
        return stepped(write_refusal(out, LONG_SHEET), sheet.len());
    }
    match read_as(sheet, at, is_flat(kind)) {
        RecordAnswer::Record(r, next) => stepped(write_text(out, r, kind), next),
        RecordAnswer::Skipped(refusal, next) => stepped(write_refusal(out, refusal), next),
        RecordAnswer::Refused(refusal) => stepped(write_refusal(out, refusal), sheet.len()),
    }
}
