// What the test programs share: words read from bytes, texts placed into a buffer, standard input
// and output.
#![tactic(auto)]

mod entry;
mod records;
mod standard;
mod text;
mod word;

pub use amounts::size_of;
pub use elementary::{bits_of, float_of};
pub use entry::{ENTRY, Entry, entry_at};
pub use feed::first;
pub use records::{PutCut, PutLine, Sizes, put_lines, run, run_to_cut};
pub use standard::{MANY, STDIN, STDOUT, make_room, put_cut, read_block};
pub use text::{
    digit, put, put_cap, put_count, put_float, put_hex, put_number, put_refusal, put_signed,
};
pub use word::{LARGEST_BOUND, bound_of, signed_of, word_at};
