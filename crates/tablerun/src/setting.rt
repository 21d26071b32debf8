// Sets a number of a table by its role, as no entry of the library does.
ghost use Rattle.std.specs.Prelude.{◌<◌, ◌≤◌};

use table::TABLE_ROOM;
use table::places::{
    ALPHA, BETA, BOUND, ETA, FILLED, FIRST_ROW, LENGTH, NEXT, OFFSETS, ROW, ROWS, STEPS, TAU,
    WEIGHTS,
};
use vector::MAX_DIM;

// The weight or the offset of a place, from the first one on.
fn entry_place(first: usize, place: u64) -> Option<usize>
    requires { first < 4096 }
{
    if place < MAX_DIM as u64 {
        return Some(first + place as usize);
    }
    None
}

// The number with a role in the row that begins at a place.
fn place_in_row(row: usize, role: u64, place: u64) -> Option<usize>
    requires { row ≤ 2429 }
{
    // By the numbers that the head of main.rt has: an enum would name each role once more, for `place_of` alone.
    match role {
        2 => Some(row + STEPS),
        3 => Some(row + LENGTH),
        4 => Some(row + BOUND),
        5 => Some(row + ALPHA),
        6 => Some(row + BETA),
        7 => Some(row + ETA),
        8 => Some(row + TAU),
        9 => entry_place(row + WEIGHTS, place),
        10 => entry_place(row + OFFSETS, place),
        _ => None,
    }
}

// The number with a role, in a row and at a place where the role has them.
fn place_of(role: u64, row: u64, place: u64) -> Option<usize> {
    if role == 0 {
        return Some(FILLED);
    }
    if role == 1 {
        return Some(NEXT);
    }
    if row < ROWS {
        return place_in_row(FIRST_ROW + row as usize * ROW, role, place);
    }
    None
}

// Sets the number with a role, if the table has room for the rows and there is such a number.
pub(crate) fn set_number(table: &mut [u64], role: u64, row: u64, place: u64, bits: u64) {
    if table.len() < TABLE_ROOM {
        return;
    }
    let Some(i) = place_of(role, row, place) else {
        return;
    };
    if i < table.len() {
        table[i] = bits;
    }
}
