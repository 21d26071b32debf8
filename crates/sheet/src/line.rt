// Writes the line of a record.
ghost use Rattle.std.specs.Prelude.{◌≡◌};
ghost use Rattle.lines.specs.Lines.{has_room, line_for, wrote, text_left};
ghost use Rattle.sheet.specs.Sheet.{record_line, line_at, answered, left};

use crate::text::{Kind, next_text};
use elementary::Refusal;
use lines::write_answer;
use quote::GLFTStrategy;
use record::{Record, config_of};

// The longest sheet.
pub const MOST_BYTES: usize = 65536;

// The length of a text and the place of the next record; none at the end of the sheet; or a refusal by 8 or 21.
pub type LineAnswer = Result<Option<(usize, usize)>, Refusal>;

// The line of a record.
pub(crate) fn write_record(line: &mut [u8], r: Record) -> Result<usize, Refusal>
    ensures value { result ≡ wrote (line_for (record_line r) line.old) }
    ensures line_after { line.new ≡ text_left (line_for (record_line r) line.old) line.old }
{
    let answer = GLFTStrategy::exact_quotes(
        r.mid_price,
        r.inventory,
        config_of(r),
        r.volatility,
        r.current_time,
    );
    write_answer(line, answer)
}

// Writes the line at a place of a sheet: refused by 8, which leaves the buffer as it is.
pub fn next_line(sheet: &[u8], at: usize, line: &mut [u8]) -> LineAnswer
    ensures value { result ≡ answered (has_room line.old) (line_at sheet.now at) }
    ensures line_after { line.new ≡ left (has_room line.old) (line_at sheet.now at) line.old }
{
    next_text(sheet, at, line, Kind::Line)
}
