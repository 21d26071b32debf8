// A table of value vectors that two desks share, so that each is made once. A table is lent by its
// callers, and only the two entries of this crate write it.
#![tactic(auto)]

pub mod places;
pub mod refusals;
mod rows;
mod writing;

ghost use Rattle.std.specs.Prelude.{◌≡◌, true, ◌≤◌, length, Ok, None};
ghost use Rattle.quote.specs.Quotes.{quotes_by_answer};
ghost use Rattle.distances.specs.Reading.{answer_from};
ghost use Rattle.vector.specs.Values.{value_vector};
ghost use Rattle.table.specs.Places.{table_room};
ghost use Rattle.table.specs.Table.{kept_in, used_with, table_used, cleared_by, cleared, table_ok};

use elementary::Refusal;
use model::{GLFTConfig, Model};
pub use places::TABLE_ROOM;
use quote::{ExactQuotes, quotes_by};
use rows::Table;
use vector::RunInput;
use writing::Kept;

// Sets every number of a table to 0: refused by 23, and by nothing else.
pub fn clear_table(table: &mut [u64]) -> Result<(), Refusal>
    ensures value { result ≡ cleared_by table.old }
    ensures table_after { table.new ≡ cleared table.old }
{
    if TABLE_ROOM <= table.len() {
        writing::set_zeros(table);
        return Ok(());
    }
    Err(refusals::SMALL_TABLE)
}

// The quotes from a vector that is made, which is kept where there are quotes.
// The table's length stays a clause, as at `add_row`.
fn made_quotes(
    table: &mut [u64],
    mid: i64,
    least: i64,
    m: Model,
    q: i64,
    input: RunInput,
) -> ExactQuotes
    requires { (table_room ≤ length table.old) × (table_ok table.old ≡ true) }
    ensures value { result ≡ quotes_by_answer mid least (answer_from (value_vector input) m.k m.base q) }
    ensures table_after { table.new ≡ kept_in None result input (value_vector input).vector table.old }
{
    let a = vector::value_vector(input);
    let outcome = a.outcome;
    let answer = distances::answer_in(
        outcome,
        &a.vector.w,
        &a.vector.log_offset,
        a.vector.n,
        m.k,
        m.base,
        q,
    );
    let quotes = quotes_by(mid, least, answer);
    match quotes {
        ExactQuotes::Quotes(_, steps) => {
            let kept = Kept {
                input,
                steps,
                n: a.vector.n,
                w: &a.vector.w,
                log_offset: &a.vector.log_offset,
            };
            writing::add_row(table, kept);
        }
        ExactQuotes::OverStepCap(_, _, _) => {}
        ExactQuotes::Refused(_) => {}
    }
    quotes
}

// The quotes of a model at q lots: from the first row that agrees, or from a vector that is made.
// The table's length stays a clause, as at `add_row`.
fn model_quotes(table: &mut [u64], mid: i64, least: i64, m: Model, q: i64, tau: f64) -> ExactQuotes
    requires { (table_room ≤ length table.old) × (table_ok table.old ≡ true) }
    ensures value { result ≡ (used_with (Ok (m, q)) mid least tau table.old).reply }
    ensures table_after { table.new ≡ (used_with (Ok (m, q)) mid least tau table.old).table }
{
    let input = model::run_input(m, tau);
    let lent = Table { numbers: table };
    match rows::find(lent, input) {
        Some(r) => quotes_by(mid, least, rows::answer_of_row(lent.row(r), m, q)),
        None => made_quotes(table, mid, least, m, q, input),
    }
}

// The exact quotes, as `exact_quotes` gives them, with a table of vectors: refused by 23, then 24, and then as
// `exact_quotes` is. The first filled row that was made from the same bound and floats is read as it
// stands; else the vector is made and, where there are quotes, put into the next row.
pub fn table_quotes(
    table: &mut [u64],
    mid_price: i64,
    inventory: i64,
    config: GLFTConfig,
    volatility: i64,
    current_time: u64,
) -> ExactQuotes
    ensures value { result ≡ (table_used table.old mid_price inventory config volatility current_time).reply }
    ensures table_after { table.new ≡ (table_used table.old mid_price inventory config volatility current_time).table }
{
    match rows::check_table(table) {
        Ok(()) => {}
        Err(refusal) => {
            return ExactQuotes::Refused(refusal);
        }
    }
    let terminal = config.terminal_time;
    let least = config.min_spread;
    match Model::exact(mid_price, inventory, config, volatility, current_time) {
        Ok((m, q)) => {
            let tau = amounts::seconds_to_terminal(terminal, current_time);
            model_quotes(table, mid_price, least, m, q, tau)
        }
        Err(refusal) => ExactQuotes::Refused(refusal),
    }
}
