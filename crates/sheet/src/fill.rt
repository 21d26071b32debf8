// Puts whole texts into a lent buffer.
ghost use Rattle.std.specs.Prelude.{◌≡◌};
ghost use Rattle.sheet.specs.Kinds.{room_of};
ghost use Rattle.sheet.specs.Fill.{filled_as, left_as, filled, left_in};

use crate::text::{Kind, next_text};
use elementary::Refusal;
use ladders::MOST_LADDER;
use ladders::refusals::SMALL_LADDER_BUFFER;
use lines::LEAST_ROOM;
use lines::refusals::SMALL_BUFFER;

// The room for any text of a kind.
fn room_of(kind: Kind) -> usize
    ensures { result ≡ room_of kind }
{
    match kind {
        Kind::Line | Kind::Plan => LEAST_ROOM,
        Kind::Ladder => MOST_LADDER,
    }
}

// Puts the texts of a kind from a place of a sheet on into a buffer, one after the other from its
// start, as many as fit: while there is room for any. Answers how many bytes they take and the place of the
// next record. Refused by 8, and by 21 where the buffer has less than the room for any ladder, which leaves
// the buffer as it is.
pub fn fill_texts(
    sheet: &[u8],
    at: usize,
    out: &mut [u8],
    kind: Kind,
) -> Result<(usize, usize), Refusal>
    ensures value { result ≡ filled_as kind sheet.now at out.old }
    ensures out_after { out.new ≡ left_as kind sheet.now at out.old }
{
    if out.len() < LEAST_ROOM {
        return Err(SMALL_BUFFER);
    }
    let room = room_of(kind);
    if out.len() < room {
        return Err(SMALL_LADDER_BUFFER);
    }
    let mut n: usize = 0;
    let mut next = at;
    // No `for`: each text says how long it is and where the next begins.
    while out.len() - n >= room {
        let Some((k, place)) = next_text(sheet, next, &mut out[n..], kind)? else {
            return Ok((n, next));
        };
        n += k;
        next = place;
    }
    Ok((n, next))
}

// The same of the lines: refused by 8, which leaves the buffer as it is.
pub fn fill_lines(sheet: &[u8], at: usize, out: &mut [u8]) -> Result<(usize, usize), Refusal>
    ensures value { result ≡ filled sheet.now at out.old }
    ensures out_after { out.new ≡ left_in sheet.now at out.old }
{
    fill_texts(sheet, at, out, Kind::Line)
}
