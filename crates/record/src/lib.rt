// The record: eleven numbers in groups of seven bits, read and saved.
#![tactic(auto)]

mod record;
pub mod refusals;
mod save;

pub use record::{
    FIELDS, Record, RecordAnswer, config_of, holding_of, read_as, read_numbers, read_record,
    record_of_numbers,
};
pub use save::{RECORD_ROOM, save_record};
