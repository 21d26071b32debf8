// The rows of a table as they stand: the check of 24, the first row that agrees, and its answer.
ghost use Rattle.std.specs.Prelude.{◌≡◌, true, ◌≤◌, length};
ghost use Rattle.elementary.specs.Checks.{first_failing, check_of};
ghost use Rattle.operator.specs.Vectors.{every};
ghost use Rattle.distances.specs.Reading.{answer_from};
ghost use Rattle.table.specs.Places.{table_room, rows_kept};
ghost use Rattle.table.specs.Table.{filled, counts_ok, row_ok, table_ok, table_checks, agrees, found, row_vector};

use crate::places::{
    ALPHA, BETA, BOUND, ETA, FILLED, LENGTH, NEXT, OFFSETS, ROW, ROWS, STEPS, TABLE_ROOM, TAU,
    WEIGHTS, row_at,
};
use crate::refusals::{BAD_TABLE, SMALL_TABLE};
use distances::Answer;
use elementary::{Refusal, bits_of};
use model::Model;
use vector::{MAX_EXPM_STEPS, MAX_INVENTORY_LOTS, RunInput};

// A table that is long enough, as it stands.
#[derive(Clone, Copy)]
pub(crate) struct Table<'a> {
    pub(crate) numbers: &'a [u64],
    ghost room: { table_room ≤ length numbers.now },
}

// One of its four rows.
#[derive(Clone, Copy)]
pub(crate) struct Row<'a> {
    table: Table<'a>,
    r: usize,
    ghost few: { r ≤ 3 },
}

impl<'a> Table<'a> {
    // A row by its place among the four.
    pub(crate) fn row(self, r: usize) -> Row<'a>
        requires { r ≤ 3 }
        ensures { (result.table.numbers.now ≡ self.entry.numbers.now) × (result.r ≡ r) }
    {
        Row { table: self, r }
    }
}

// Whether the two counts are such as calls leave them.
fn counts_fit(filled: u64, next: u64) -> bool
    ensures { result ≡ counts_ok filled next }
{
    (filled <= ROWS) & ((next <= 3) & ((ROWS <= filled) | (next == filled)))
}

// Whether a row's steps, bound and length are.
fn row_fits(row: Row<'_>) -> bool
    ensures { result ≡ row_ok row.entry.table.numbers.now row.entry.r }
{
    let table = row.table.numbers;
    let at = row_at(row.r);
    let bound = table[at + BOUND];
    if u64::from(MAX_INVENTORY_LOTS) < bound {
        return false;
    }
    (table[at + STEPS] <= u64::from(MAX_EXPM_STEPS))
        & ((1 <= bound) & (table[at + LENGTH] == 2 * bound + 1))
}

// Whether those of the first n rows are.
fn rows_fit(table: Table<'_>, n: usize) -> bool
    requires { n ≤ rows_kept }
    ensures { result ≡ every n (row_ok table.entry.numbers.now) }
{
    (0..n).all(|r| row_fits(table.row(r)))
}

// Whether a table passes the check of 24: an unfilled row is not looked at, and no float.
fn table_fits(table: Table<'_>) -> bool
    ensures { result ≡ table_ok table.entry.numbers.now }
{
    let filled = table.numbers[FILLED];
    if counts_fit(filled, table.numbers[NEXT]) {
        return rows_fit(table, filled as usize);
    }
    false
}

// Whether a table passes: refused by 23, then 24.
pub(crate) fn check_table(table: &[u64]) -> Result<(), Refusal>
    ensures { result ≡ check_of (first_failing (table_checks table.now)) }
{
    if TABLE_ROOM <= table.len() {
        if table_fits(Table { numbers: table }) {
            return Ok(());
        }
        return Err(BAD_TABLE);
    }
    Err(SMALL_TABLE)
}

// Whether a row's vector was made from this input: the bound agrees, and each float bit for bit.
fn row_agrees(row: Row<'_>, input: RunInput) -> bool
    ensures { result ≡ agrees row.entry.table.numbers.now input row.entry.r }
{
    let table = row.table.numbers;
    let at = row_at(row.r);
    (table[at + BOUND] == u64::from(input.bound))
        & (table[at + ALPHA] == bits_of(input.alpha))
        & (table[at + BETA] == bits_of(input.beta))
        & (table[at + ETA] == bits_of(input.eta))
        & (table[at + TAU] == bits_of(input.tau))
}

// The first filled row that agrees, if one does.
pub(crate) fn find(table: Table<'_>, input: RunInput) -> Option<usize>
    requires { filled table.numbers.now ≤ rows_kept }
    ensures { result ≡ found table.entry.numbers.now input }
{
    let rows = table.numbers[FILLED] as usize;
    for r in 0..rows {
        if row_agrees(table.row(r), input) {
            return Some(r);
        }
    }
    None
}

// The answer at q lots from a row as it stands, whose weights and offsets are lent: none is copied.
pub(crate) fn answer_of_row(row: Row<'_>, m: Model, q: i64) -> Answer
    requires { row_ok row.table.numbers.now row.r ≡ true }
    ensures { result ≡ answer_from (row_vector row.entry.table.numbers.now row.entry.r) m.k m.base q }
{
    let table = row.table.numbers;
    let at = row_at(row.r);
    distances::answer_in_bits(
        table[at + STEPS] as u32,
        &table[at + WEIGHTS..at + OFFSETS],
        &table[at + OFFSETS..at + ROW],
        table[at + LENGTH] as usize,
        m.k,
        m.base,
        q,
    )
}
