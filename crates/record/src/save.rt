// Saves a record: eleven numbers in groups of seven bits, each in the fewest.
ghost use Rattle.std.specs.Prelude.{◌≡◌, ◌≤◌, length, T};
ghost use Rattle.amounts.specs.Amounts.{amount_ok};
ghost use Rattle.record.specs.Record.{fields, stored};
ghost use Rattle.buffers.specs.Over.{over};
ghost use Rattle.record.specs.Save.{in_groups, all_in_groups, numbers_of, none_below, save_ok, saved, saved_in};

use crate::record::{FIELDS, MOST_GROUPS, Record, config_of};
use crate::refusals::SMALL_RECORD_BUFFER;
use amounts::refusals::LIMITS;
use elementary::Refusal;
use model::GLFTConfig;

// The least buffer for a record: the most groups for each of its numbers.
pub const RECORD_ROOM: usize = FIELDS * MOST_GROUPS;

// A number in the fewest groups, at the start of a buffer; answers how many bytes it takes.
fn write_number(out: &mut [u8], n: u64) -> usize
    requires { length (in_groups n) ≤ length out.old }
    ensures out_after { out.new ≡ over (in_groups n) out.old }
    ensures value { result ≡ length (in_groups n) }
{
    let mut at: usize = 0;
    let mut rest = n;
    // No `for`: how many groups there are shows on the way.
    while rest >= 128 {
        out[at] = (rest % 128) as u8 + 128;
        rest /= 128;
        at += 1;
    }
    out[at] = rest as u8;
    at + 1
}

// Numbers one after the other.
fn write_numbers(out: &mut [u8], v: [u64; FIELDS]) -> usize
    requires eleven { length v ≡ fields }
    requires room { length (all_in_groups v) ≤ length out.old }
    ensures out_after { out.new ≡ over (all_in_groups v) out.old }
    ensures value { result ≡ length (all_in_groups v) }
{
    let mut at: usize = 0;
    for n in v {
        at += write_number(&mut out[at..], n);
    }
    at
}

// A holding as it is stored: 2h, or -2h - 1 where it is negative.
fn stored_of(h: i64) -> u64
    requires { T (amount_ok h) }
    ensures { result ≡ stored h }
{
    let twice = 2 * h.unsigned_abs();
    if h < 0 {
        return twice - 1;
    }
    twice
}

// A record's numbers, in the sheet's order.
fn numbers_of(r: Record) -> [u64; FIELDS]
    requires { T (save_ok r) }
    ensures { result ≡ numbers_of r }
{
    [
        r.mid_price.unsigned_abs(),
        stored_of(r.inventory),
        r.volatility.unsigned_abs(),
        r.risk_aversion.unsigned_abs(),
        r.order_intensity_k.unsigned_abs(),
        r.intensity_scale_a.unsigned_abs(),
        u64::from(r.max_inventory_lots),
        r.lot_size.unsigned_abs(),
        r.terminal_time,
        r.current_time,
        r.min_spread.unsigned_abs(),
    ]
}

// Whether no amount but the holding is below zero.
fn none_below(r: Record) -> bool
    ensures { result ≡ none_below r }
{
    (0 <= r.mid_price)
        & (0 <= r.volatility)
        & (0 <= r.risk_aversion)
        & (0 <= r.order_intensity_k)
        & (0 <= r.intensity_scale_a)
        & (0 <= r.lot_size)
        & (0 <= r.min_spread)
}

// Whether a record can be saved.
fn can_save(r: Record) -> bool
    ensures { result ≡ save_ok r }
{
    model::limits_fit(r.mid_price, r.inventory, config_of(r), r.volatility)
        & (r.current_time <= GLFTConfig::MAX_TIME)
        & none_below(r)
}

// Writes a record at the start of a buffer, as `read_record` reads it, and answers how many bytes that
// took: refused by 20, then 2, which leaves the buffer as it is.
pub fn save_record(r: Record, out: &mut [u8]) -> Result<usize, Refusal>
    ensures value { result ≡ saved r out.old }
    ensures out_after { out.new ≡ saved_in r out.old }
{
    if out.len() < RECORD_ROOM {
        return Err(SMALL_RECORD_BUFFER);
    }
    if can_save(r) {
        let v = numbers_of(r);
        return Ok(write_numbers(out, v));
    }
    Err(LIMITS)
}
