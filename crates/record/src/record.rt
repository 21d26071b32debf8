// Reads a record: eleven numbers in groups of seven bits.
ghost use Rattle.std.specs.Prelude.{◌≡◌, ◌≤◌, length, drop, T};
ghost use Rattle.record.specs.Record.{numbers, numbers_answer, numbers_left, config_of, holding, as_held, record_of, record_ok, record_by, read_as, read_record};
ghost use Rattle.record.specs.Inner.{NumberIs, Stored};

use crate::refusals::{CUT_SHORT, MALFORMED};
use amounts::refusals::LIMITS;
use elementary::Refusal;
use model::GLFTConfig;

// The numbers of a record.
pub const FIELDS: usize = 11;

// The holding's place among them.
const HOLDING: usize = 1;

// The most groups of a number.
pub(crate) const MOST_GROUPS: usize = 8;

const MOST: u64 = GLFTConfig::MAX_AMOUNT as u64;

// The largest bound that is read.
const MOST_BOUND: u64 = u32::MAX as u64;

// The eleven numbers of a record, in the sheet's order.
#[derive(Clone, Copy)]
pub struct Record {
    pub mid_price: i64,
    pub inventory: i64,
    pub volatility: i64,
    pub risk_aversion: i64,
    pub order_intensity_k: i64,
    pub intensity_scale_a: i64,
    pub max_inventory_lots: u32,
    pub lot_size: i64,
    pub terminal_time: u64,
    pub current_time: u64,
    pub min_spread: i64,
}

// A record and the place of the next; a refusal by 2, with the place where reading goes on; or a
// refusal by 6 or 7, after which nothing more is read. Reading goes on after two of the three.
#[derive(Clone, Copy)]
pub enum RecordAnswer {
    Record(Record, usize),
    Skipped(Refusal, usize),
    Refused(Refusal),
}

// The number at a place, and the place after it. By a place, and not by the bytes that are left: handing on a
// slice took about three instructions more for each number.
fn read_number(s: &[u8], at: usize) -> Result<(u64, usize), Refusal>
    requires { at ≤ length s.now }
    ensures { NumberIs s.now at result }
{
    let mut value: u64 = 0;
    let mut unit: u64 = 1;
    for groups in 0..MOST_GROUPS {
        let i = at + groups;
        if i >= s.len() {
            return Err(CUT_SHORT);
        }
        let b = s[i];
        if b < 128 {
            if (groups > 0) & (b == 0) {
                return Err(MALFORMED);
            }
            return Ok((value + u64::from(b) * unit, i + 1));
        }
        value += u64::from(b % 128) * unit;
        unit *= 128;
    }
    Err(MALFORMED)
}

// A place within some bytes: past their end no byte is left.
fn place_in(s: &[u8], at: usize) -> usize
    ensures { (result ≤ length s.now) × (drop result s.now ≡ drop at s.now) }
{
    at.min(s.len())
}

// The place after n numbers. Apart from `take_numbers`, which stores them: one loop for both would hand each
// number to a closure, which would count its places by hand and test that one is left.
fn place_after(s: &[u8], at: usize, n: usize) -> Result<usize, Refusal>
    ensures { result ≡ numbers_answer (length s.now) (numbers n (drop at s.now)) }
{
    let mut next = place_in(s, at);
    for _ in 0..n {
        let (_, place) = read_number(s, next)?;
        next = place;
    }
    Ok(next)
}

// Stores the numbers from a place on as they are read: before a refusal some may be stored.
fn take_numbers(s: &[u8], at: usize, out: &mut [u64]) -> Result<usize, Refusal>
    ensures value { result ≡ numbers_answer (length s.now) (numbers (length out.old) (drop at s.now)) }
    ensures stored { Stored (numbers (length out.old) (drop at s.now)) out.new }
{
    let mut next = place_in(s, at);
    for slot in out.iter_mut() {
        let (value, place) = read_number(s, next)?;
        *slot = value;
        next = place;
    }
    Ok(next)
}

// Reads as many numbers as a slice has places, from a place of some bytes on, and answers the place after
// them: refused by 6 and 7, which leaves the slice as it is.
pub fn read_numbers(s: &[u8], at: usize, out: &mut [u64]) -> Result<usize, Refusal>
    ensures value { result ≡ numbers_answer (length s.now) (numbers (length out.old) (drop at s.now)) }
    ensures out_after { out.new ≡ numbers_left (numbers (length out.old) (drop at s.now)) out.old }
{
    place_after(s, at, out.len())?;
    take_numbers(s, at, out)
}

// Whether every number is within its limit. A stored holding is about twice its size.
fn within_limits(v: [u64; FIELDS]) -> bool
    ensures { result ≡ record_ok (record_of v) }
{
    let config = (v[3] <= MOST)
        & (v[4] <= MOST)
        & (v[5] <= MOST)
        & (v[7] <= MOST)
        & (v[10] <= MOST)
        & (v[8] <= GLFTConfig::MAX_TIME);
    (v[0] <= MOST)
        & (v[1] <= 2 * MOST)
        & (v[2] <= MOST)
        & config
        & (v[9] <= GLFTConfig::MAX_TIME)
        & (v[6] <= MOST_BOUND)
}

// A stored holding: 2h, or -2h - 1 where it is negative.
pub fn holding_of(stored: u64) -> i64
    ensures { result ≡ holding stored }
{
    let half = (stored / 2) as i64;
    if stored % 2 == 0 {
        return half;
    }
    -1 - half
}

fn record_of(v: [u64; FIELDS]) -> Record
    requires { T (record_ok (record_of v)) }
    ensures { result ≡ record_of v }
{
    Record {
        mid_price: v[0] as i64,
        inventory: holding_of(v[1]),
        volatility: v[2] as i64,
        risk_aversion: v[3] as i64,
        order_intensity_k: v[4] as i64,
        intensity_scale_a: v[5] as i64,
        max_inventory_lots: v[6] as u32,
        lot_size: v[7] as i64,
        terminal_time: v[8],
        current_time: v[9],
        min_spread: v[10] as i64,
    }
}

// The desk that a record means: a stored record has drift 0.
pub fn config_of(r: Record) -> GLFTConfig
    ensures { result ≡ config_of r }
{
    GLFTConfig {
        risk_aversion: r.risk_aversion,
        order_intensity_k: r.order_intensity_k,
        intensity_scale_a: r.intensity_scale_a,
        max_inventory_lots: r.max_inventory_lots,
        lot_size: r.lot_size,
        terminal_time: r.terminal_time,
        min_spread: r.min_spread,
        drift: 0,
    }
}

// The numbers as they are, or with a holding of 0 in the place of theirs.
fn numbers_of(mut v: [u64; FIELDS], flat: bool) -> [u64; FIELDS]
    ensures { result ≡ as_held flat v }
{
    if flat {
        v[HOLDING] = 0;
    }
    v
}

// The record of eleven numbers in the sheet's order, with the place after them: refused by 2.
pub fn record_of_numbers(numbers: [u64; FIELDS], next: usize) -> RecordAnswer
    ensures { result ≡ record_by numbers next }
{
    if within_limits(numbers) {
        return RecordAnswer::Record(record_of(numbers), next);
    }
    RecordAnswer::Skipped(LIMITS, next)
}

// The record at a place of a sheet, with its holding or without: refused by 6, 7 and 2.
pub fn read_as(sheet: &[u8], at: usize, flat: bool) -> RecordAnswer
    ensures { result ≡ read_as flat sheet.now at }
{
    let mut found: [u64; FIELDS] = [0; FIELDS];
    match take_numbers(sheet, at, &mut found) {
        Ok(next) => record_of_numbers(numbers_of(found, flat), next),
        Err(refusal) => RecordAnswer::Refused(refusal),
    }
}

// The record at a place of a sheet: refused by 6, 7 and 2.
pub fn read_record(sheet: &[u8], at: usize) -> RecordAnswer
    ensures { result ≡ read_record sheet.now at }
{
    read_as(sheet, at, false)
}
