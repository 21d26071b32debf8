// Hands texts on to standard output, which nothing else writes to.
ghost use Rattle.std.specs.Prelude.{◌≡◌, ◌+◌, length};
ghost use Rattle.printing.specs.Printing.{Next, HandedOn};

use sheet::Kind;
use std::io::Result;

// How many bytes are handed on. No other file can make one, so whoever has one has handed on so many.
#[derive(Drop)]
pub(crate) struct Done {
    count: usize,
}

// At the start.
pub(crate) fn none_done() -> Done
    ensures { result.count ≡ 0 }
{
    Done { count: 0 }
}

pub(crate) fn count_of(done: Done) -> usize
    ensures { result ≡ done.count }
{
    done.count
}

// Writes a text, which is what comes next of all that is printed for a sheet, after the bytes that are
// done: so many are done then.
pub(crate) fn hand_on(
    rt: &HostRuntime,
    s: &[u8],
    kind: Kind,
    done: Done,
    text: &[u8],
) -> Result<Done>
    requires { Next kind s.now done.count text.now }
    ensures { HandedOn (done.count + length text.now) result }
{
    rt.write_all(text)?;
    Ok(Done {
        count: done.count + text.len(),
    })
}
