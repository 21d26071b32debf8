// What the operators' programs share: a sheet read from standard input, and the part of a buffer that is written.
#![tactic(auto)]

ghost use Rattle.std.specs.Prelude.{◌≡◌, length, take};
ghost use Rattle.feed.specs.Feed.{Fed};

use std::io::{Read, Result};

// Reads until the buffer is full or the input ends, and answers how many bytes that were. With a buffer of
// one byte more than the longest sheet, a full one tells a sheet that is longer.
#[tactic(auto, unfolding(crate::specs::Feed::Fed))]
pub fn read_sheet(rt: &HostRuntime, input: &mut [u8]) -> Result<usize>
    ensures { Fed (length input.old) result }
{
    let mut from = rt.stdin();
    let mut n: usize = 0;
    // No `for`: each read says how far it came.
    while n < input.len() {
        let more = from.read(&mut input[n..])?;
        if more == 0 {
            break;
        }
        n += more;
    }
    Ok(n)
}

// The first n bytes of a text, or all where it has fewer: what a program hands on to be written.
pub fn first(text: &[u8], n: usize) -> &[u8]
    ensures { result.now ≡ take n text.now }
{
    &text[..n.min(text.len())]
}
