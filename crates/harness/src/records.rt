// The run of a program that reads records and writes a line for each.
ghost use Rattle.std.specs.Prelude.{◌≡◌, ℕ, List, ◌*◌, ◌/◌, ◌%◌, ◌<◌, ◌≤◌, length};
ghost use Rattle.harness.specs.Records.{LinesPut, BlockPut, BlocksPut};

use crate::standard::{MANY, STDOUT, make_room, read_block};
use feed::first;

// The bytes of a record, those that are read at once, and the most of a record's line. What is read at
// once holds whole records, and fits the buffer.
#[derive(Clone, Copy)]
pub struct Sizes {
    pub size: usize,
    pub block: usize,
    pub line: usize,
    ghost not_empty: { 0 < size },
    ghost whole: { block % size ≡ 0 },
    ghost held: { block ≤ 65536 },
}

// What puts the lines of a program. A trait and no closure: a closure may ask for something, so that a
// function which calls it would have a `requires`.
pub trait PutLine {
    // What a call may do: self, the buffer and the place in it before, the bytes and the record's place in
    // them; then self, the buffer and the place after it.
    ghost puts: { Self → List ℕ → ℕ → List ℕ → ℕ → Self → List ℕ → ℕ → Type 0 };

    // Puts the line of the record at a place of s into `out`, from the place `used` on, and answers the
    // place after it.
    fn put_line(&mut self, out: &mut [u8], used: usize, s: &[u8], at: usize) -> usize
        ensures { puts self.old out.old used s.now at self.new out.new result };
}

// What puts the line of a record that ends inside itself.
pub trait PutCut {
    // Puts what it says of the bytes that are left into `out`, from the place `used` on, and answers the
    // place after it.
    fn put_cut(&self, out: &mut [u8], used: usize, left: usize) -> usize;
}

// The line `R 6`.
#[derive(Drop)]
struct CutShort;

impl PutCut for CutShort {
    fn put_cut(&self, out: &mut [u8], used: usize, left: usize) -> usize {
        crate::standard::put_cut(out, used, left)
    }
}

// Puts the lines of the whole records of s into `out`, from the place `start` on. Before each line `out`
// is written out where it has no room for the longest. Answers how many bytes are left in it.
pub fn put_lines<L: PutLine>(
    out: &mut [u8],
    start: usize,
    s: &[u8],
    sizes: Sizes,
    lines: &mut L,
) -> usize
    ensures { LinesPut L.puts s.now sizes.size sizes.line (length s.now / sizes.size)
        lines.old out.old start lines.new out.new result }
{
    let mut used = start;
    for i in 0..s.len() / sizes.size {
        used = make_room(out, used, sizes.line);
        used = lines.put_line(out, used, s, i * sizes.size);
    }
    used
}

// Reads a block and writes its lines, and where the last record ends inside itself what `put_cut` puts
// for it. May more follow? After a full block, unless standard output takes no more.
fn run_block<L: PutLine, C: PutCut>(sizes: Sizes, lines: &mut L, cut: &C) -> bool
    ensures { BlockPut L.puts sizes.size sizes.line lines.old lines.new }
{
    let mut block = io::large_buffer();
    let n = read_block(&mut block, sizes.block);
    let mut out = io::large_buffer();
    let end = put_lines(&mut out, 0, first(&block, n), sizes, lines);
    let used = cut.put_cut(&mut out, end, n % sizes.size);
    io::write_all(STDOUT, first(&out, used)) && n == sizes.block
}

// Runs a program: reads records from standard input and writes the line of each, and where the last record
// ends inside itself what `cut` puts after the place and for the bytes left. Which bytes are read, and what is
// written, no contract sees: this one says that `lines` is asked for the lines of blocks, and for nothing else.
pub fn run_to_cut<L: PutLine, C: PutCut>(sizes: Sizes, lines: &mut L, cut: &C)
    ensures { (n : ℕ) × BlocksPut L.puts sizes.size sizes.line n lines.old lines.new }
{
    for _ in 0..MANY {
        if !run_block(sizes, lines, cut) {
            return;
        }
    }
}

// The same where the line of a record that ends inside itself is `R 6`.
pub fn run<L: PutLine>(sizes: Sizes, lines: &mut L)
    ensures { (n : ℕ) × BlocksPut L.puts sizes.size sizes.line n lines.old lines.new }
{
    run_to_cut(sizes, lines, &CutShort);
}
