// Writes the line of a record's first plan, which tells whether its horizon is too long before anything
// runs.
ghost use Rattle.std.specs.Prelude.{◌≡◌};
ghost use Rattle.lines.specs.Lines.{has_room, line_for, wrote, text_left};
ghost use Rattle.sheet.specs.Sheet.{answered, left};
ghost use Rattle.sheet.specs.Horizon.{record_plan, plan_at};

use crate::line::LineAnswer;
use crate::text::{Kind, next_text};
use elementary::Refusal;
use lines::write_plan;
use record::{Record, config_of};

// The line of a record's plan.
pub(crate) fn write_record_plan(line: &mut [u8], r: Record) -> Result<usize, Refusal>
    ensures value { result ≡ wrote (line_for (record_plan r) line.old) }
    ensures line_after { line.new ≡ text_left (line_for (record_plan r) line.old) line.old }
{
    let plan = quote::first_plan(
        r.mid_price,
        r.inventory,
        config_of(r),
        r.volatility,
        r.current_time,
    );
    write_plan(line, plan)
}

// Writes the line of the plan of the record at a place of a sheet, or of what refuses it: refused by 8,
// which leaves the buffer as it is.
pub fn next_plan(sheet: &[u8], at: usize, line: &mut [u8]) -> LineAnswer
    ensures value { result ≡ answered (has_room line.old) (plan_at sheet.now at) }
    ensures line_after { line.new ≡ left (has_room line.old) (plan_at sheet.now at) line.old }
{
    next_text(sheet, at, line, Kind::Plan)
}
