// What the two entries write into a table.
ghost use Rattle.std.specs.Prelude.{◌≡◌, map, ◌≤◌, ◌%◌, suc, min, length, replicate};
ghost use Rattle.plan.specs.Plan.{room};
ghost use Rattle.distances.specs.Distances.{lent};
ghost use Rattle.table.specs.Places.{table_room, rows_kept, row_size};
ghost use Rattle.table.specs.Table.{bits, next, row_numbers, with_row};

use crate::places::{
    ALPHA, BETA, BOUND, ETA, FILLED, LENGTH, NEXT, OFFSETS, ROW, ROWS, STEPS, TAU, WEIGHTS, row_at,
};
use elementary::bits_of;
use vector::RunInput;

// Sets every number to 0.
pub(crate) fn set_zeros(out: &mut [u64])
    ensures { out.new ≡ replicate (length out.old) 0 }
{
    out.fill(0);
}

// The bits of as many floats.
fn write_bits(out: &mut [u64], floats: &[f64])
    requires { length out.old ≡ length floats.now }
    ensures { out.new ≡ map bits floats.now }
{
    // By index: of `iter_mut` under `zip` a proof knows no value that is written.
    for (i, x) in floats.iter().enumerate() {
        out[i] = bits_of(*x);
    }
}

// What a row keeps: what its vector was made from, the steps that it took, and its n weights and offsets.
#[derive(Clone, Copy)]
pub(crate) struct Kept<'a> {
    pub(crate) input: RunInput,
    pub(crate) steps: u32,
    pub(crate) n: usize,
    pub(crate) w: &'a [f64],
    pub(crate) log_offset: &'a [f64],
    ghost weights: { length w.now ≡ room },
    ghost offsets: { length log_offset.now ≡ room },
}

// The numbers of a row: the steps, the vector's length, what it was made from, weights and offsets.
fn write_row(row: &mut [u64], kept: Kept<'_>)
    requires { length row.old ≡ row_size }
    ensures { row.new ≡ row_numbers kept.entry.input kept.entry.steps (lent kept.entry.n kept.entry.w.now kept.entry.log_offset.now) }
{
    let input = kept.input;
    row[STEPS] = u64::from(kept.steps);
    row[LENGTH] = kept.n as u64;
    row[BOUND] = u64::from(input.bound);
    row[ALPHA] = bits_of(input.alpha);
    row[BETA] = bits_of(input.beta);
    row[ETA] = bits_of(input.eta);
    row[TAU] = bits_of(input.tau);
    write_bits(&mut row[WEIGHTS..OFFSETS], kept.w);
    write_bits(&mut row[OFFSETS..ROW], kept.log_offset);
}

// One row more, of four at the most.
fn one_more(filled: u64) -> u64
    ensures { result ≡ min rows_kept (suc filled) }
{
    filled.saturating_add(1).min(ROWS)
}

// The row after a row, the first after the last.
fn row_after(next: u64) -> u64
    requires { next ≤ 3 }
    ensures { result ≡ suc next % rows_kept }
{
    (next + 1) % ROWS
}

// Puts a vector into the next row, which is the oldest where all are filled.
// That the table is long enough stays a clause where it is written: of a struct round the `&mut` with that fact
// the check lets no part be lent.
pub(crate) fn add_row(table: &mut [u64], kept: Kept<'_>)
    requires { (table_room ≤ length table.old) × (next table.old ≤ 3) }
    ensures { table.new ≡ with_row kept.entry.input kept.entry.steps (lent kept.entry.n kept.entry.w.now kept.entry.log_offset.now) table.old }
{
    let next = table[NEXT];
    let at = row_at(next as usize);
    table[FILLED] = one_more(table[FILLED]);
    table[NEXT] = row_after(next);
    write_row(&mut table[at..at + ROW], kept);
}
