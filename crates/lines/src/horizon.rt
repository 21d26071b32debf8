// Writes the line of a first plan, which tells whether a horizon is too long before anything runs.
ghost use Rattle.std.specs.Prelude.{◌≡◌};
ghost use Rattle.lines.specs.Lines.{plan_line, line_for, wrote, text_left};

use crate::line::{LEAST_ROOM, write_cap, write_counted};
use crate::refusals::SMALL_BUFFER;
use elementary::Refusal;
use plan::FirstPlan;

// Writes the line of any plan, and answers how many bytes it takes: refused by 8, which leaves the buffer as
// it is.
pub fn write_plan(line: &mut [u8], plan: FirstPlan) -> Result<usize, Refusal>
    ensures value { result ≡ wrote (line_for (plan_line plan) line.old) }
    ensures line_after { line.new ≡ text_left (line_for (plan_line plan) line.old) line.old }
{
    if line.len() < LEAST_ROOM {
        return Err(SMALL_BUFFER);
    }
    match plan {
        FirstPlan::Steps(steps) => Ok(write_counted(line, b'N', steps as u64)),
        FirstPlan::OverCap(need, budget) => Ok(write_cap(line, need, budget)),
        FirstPlan::Refused(refusal) => Ok(write_counted(line, b'R', refusal.0 as u64)),
    }
}
