// Writes the ladder of a desk: a line for each lot from minus the bound to the bound, lowest first,
// from one reckoning.
ghost use Rattle.std.specs.Prelude.{◌≡◌, ◌≤◌, length, Ok};
ghost use Rattle.model.specs.Model.{check_call};
ghost use Rattle.buffers.specs.Over.{over};
ghost use Rattle.ladders.specs.Ladder.{rungs, lot_at, ladder, ladder_room, laddered, laddered_in};

use crate::refusals::SMALL_LADDER_BUFFER;
use elementary::Refusal;
use lines::{LEAST_ROOM, write_answer};
use quote::GLFTConfig;
use vector::MAX_DIM;

// The most bytes that a ladder takes: a line for each of 401 lots.
pub const MOST_LADDER: usize = LEAST_ROOM * MAX_DIM;

// How many lines a ladder has.
fn rungs_of(config: GLFTConfig) -> usize
    requires { config.max_inventory_lots ≤ 200 }
    ensures { result ≡ rungs config }
{
    2 * config.max_inventory_lots as usize + 1
}

// The lots of line i.
fn lot_at(config: GLFTConfig, i: usize) -> i64
    requires { (config.max_inventory_lots ≤ 200) × (i ≤ 400) }
    ensures { result ≡ lot_at config i }
{
    i as i64 - i64::from(config.max_inventory_lots)
}

// The lines of a desk whose numbers pass, one after the other. What they are reckoned from stays four
// parameters, as in `write_ladder`, which may not change: a struct would be packed for this one call.
fn write_rungs(
    out: &mut [u8],
    mid_price: i64,
    config: GLFTConfig,
    volatility: i64,
    current_time: u64,
) -> usize
    requires checked { check_call mid_price config volatility current_time ≡ Ok tt }
    requires room { ladder_room config ≤ length out.old }
    ensures out_after { out.new ≡ over (ladder mid_price config volatility current_time) out.old }
    ensures value { result ≡ length (ladder mid_price config volatility current_time) }
{
    let r = lots::reckon(config, volatility, current_time);
    let a = r.vector;
    let outcome = a.outcome;
    let mut at: usize = 0;
    for i in 0..rungs_of(config) {
        let lot = lot_at(config, i);
        let answer = lots::quotes_in(
            mid_price,
            config,
            r.k,
            r.base,
            outcome,
            &a.vector.w,
            &a.vector.log_offset,
            a.vector.n,
            lot,
        );
        let Ok(k) = write_answer(&mut out[at..], answer) else {
            return at;
        };
        at += k;
    }
    at
}

// Writes a ladder into a buffer, from its start, and answers how many bytes it takes. Refused as a
// whole, which leaves the buffer as it is: by what 2, 1 or 3 refuses at holding 0; then by 21, where
// the buffer has less than 64 bytes for each line.
pub fn write_ladder(
    mid_price: i64,
    config: GLFTConfig,
    volatility: i64,
    current_time: u64,
    out: &mut [u8],
) -> Result<usize, Refusal>
    ensures value { result ≡ laddered mid_price config volatility current_time out.old }
    ensures out_after { out.new ≡ laddered_in mid_price config volatility current_time out.old }
{
    quote::check_call(mid_price, config, volatility, current_time)?;
    if out.len() < LEAST_ROOM * rungs_of(config) {
        return Err(SMALL_LADDER_BUFFER);
    }
    Ok(write_rungs(out, mid_price, config, volatility, current_time))
}
