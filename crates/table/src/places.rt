// Where each number of a table stands, as specs/Places.antt has it.
ghost use Rattle.std.specs.Prelude.{◌≡◌, ◌≤◌};
ghost use Rattle.table.specs.Places.{row_at};

// The fewest numbers of a table.
pub const TABLE_ROOM: usize = 4096;

// How many vectors it keeps.
pub const ROWS: u64 = 4;

// The count of filled rows, and the row that a new vector takes.
pub const FILLED: usize = 0;

pub const NEXT: usize = 1;

// The first row, and the numbers of each.
pub const FIRST_ROW: usize = 2;

pub const ROW: usize = 809;

// From a row's first number on: the steps, the vector's length, what it was made from, the weights and
// the offsets.
pub const STEPS: usize = 0;

pub const LENGTH: usize = 1;

pub const BOUND: usize = 2;

pub const ALPHA: usize = 3;

pub const BETA: usize = 4;

pub const ETA: usize = 5;

pub const TAU: usize = 6;

pub const WEIGHTS: usize = 7;

pub const OFFSETS: usize = 408;

// Where a row begins.
pub(crate) fn row_at(r: usize) -> usize
    requires { r ≤ 3 }
    ensures { result ≡ row_at r }
{
    FIRST_ROW + r * ROW
}
