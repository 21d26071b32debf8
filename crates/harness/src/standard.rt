// Standard input and output. No contract can say what is read or written, so what is written is a
// slice that a contract names.
ghost use Rattle.std.specs.Prelude.{◌≡◌, ◌≤◌, eqb};
ghost use Rattle.harness.specs.Texts.{room, cut_by, after_cut};

use crate::text::{has_room, put};
use feed::first;

// The numbers of standard input and of standard output.
pub const STDIN: i32 = 0;

pub const STDOUT: i32 = 1;

// A proved loop has to end, and nothing says that the input does. So a program counts its blocks down,
// from a number that no run uses up.
pub const MANY: u64 = 0xFFFFFFFFFFFFFFFF;

// Reads until there are `most` bytes, the buffer is full or the input ends, and answers how many bytes
// it put at the start of the buffer.
pub fn read_block(buf: &mut [u8], most: usize) -> usize
    ensures { result ≤ most }
{
    let n = most.min(buf.len());
    io::read_full(STDIN, &mut buf[..n])
}

// Makes room for n bytes after the first `used` of a buffer, which are written out where they leave
// none, and answers the place of those to come.
pub fn make_room(out: &[u8], used: usize, n: usize) -> usize
    ensures { result ≡ room out.now used n }
{
    if has_room(out, used, n) {
        return used;
    }
    io::write_all(STDOUT, first(out, used));
    0
}

// After the lines of a block, that of a record that ends inside itself, if any of its bytes are left:
// `R 6`.
pub fn put_cut(out: &mut [u8], used: usize, left: usize) -> usize
    ensures out_after { out.new ≡ cut_by (eqb left 0) out.old used }
    ensures value { result ≡ after_cut (eqb left 0) out.old used }
{
    if left == 0 {
        return used;
    }
    let at = make_room(out, used, 4);
    put(out, at, b"R 6\n")
}
