// The sheet: records in, lines out.
#![tactic(auto)]

mod fill;
mod horizon;
mod ladder;
mod line;
pub mod refusals;
mod text;

pub use elementary::Refusal;
pub use fill::{fill_lines, fill_texts};
pub use horizon::next_plan;
pub use ladder::next_ladder;
pub use ladders::{MOST_LADDER, write_ladder};
pub use line::{LineAnswer, MOST_BYTES, next_line};
pub use lines::LEAST_ROOM;
pub use record::{RECORD_ROOM, Record, RecordAnswer, config_of, read_record, save_record};
pub use text::Kind;
