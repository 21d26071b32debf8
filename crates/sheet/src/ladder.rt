// Writes the ladder of a record.
ghost use Rattle.std.specs.Prelude.{◌≡◌, ◌≤◌, length};
ghost use Rattle.lines.specs.Lines.{least_room, has_room, wrote, text_left};
ghost use Rattle.sheet.specs.Sheet.{answered, left};
ghost use Rattle.sheet.specs.Ladders.{record_ladder, ladder_at};

use crate::line::LineAnswer;
use crate::text::{Kind, next_text};
use elementary::Refusal;
use ladders::refusals::SMALL_LADDER_BUFFER;
use ladders::write_ladder;
use lines::write_refusal;
use record::{Record, config_of};

// The ladder of a record, or the line of what refuses it as a whole: refused by 21.
pub(crate) fn write_record_ladder(out: &mut [u8], r: Record) -> Result<usize, Refusal>
    requires { least_room ≤ length out.old }
    ensures value { result ≡ wrote (record_ladder (length out.old) r) }
    ensures out_after { out.new ≡ text_left (record_ladder (length out.old) r) out.old }
{
    match write_ladder(r.mid_price, config_of(r), r.volatility, r.current_time, out) {
        Ok(n) => Ok(n),
        Err(refusal) => {
            if refusal == SMALL_LADDER_BUFFER {
                return Err(refusal);
            }
            write_refusal(out, refusal)
        }
    }
}

// Writes the ladder of the record at a place of a sheet, its holding left aside, or the line of what
// refuses it: refused by 8, and by 21 where the buffer has less than 64 bytes for each line, which
// leaves the buffer as it is.
pub fn next_ladder(sheet: &[u8], at: usize, out: &mut [u8]) -> LineAnswer
    ensures value { result ≡ answered (has_room out.old) (ladder_at (length out.old) sheet.now at) }
    ensures out_after { out.new ≡ left (has_room out.old) (ladder_at (length out.old) sheet.now at) out.old }
{
    next_text(sheet, at, out, Kind::Ladder)
}
