// The answer at a holding from a vector whose arrays are lent by their bits.
ghost use Rattle.std.specs.Prelude.{◌≡◌};
ghost use Rattle.vector.specs.declared.Outcome.TheVariants as Outcome;
ghost use Rattle.distances.specs.Distances.{lent};
ghost use Rattle.distances.specs.Reading.{floats, read_by};

use crate::Answer;
use crate::lent::Lent;
use crate::places::Scale;

// What `answer_in` gives of a vector that is done after so many steps, from arrays that are lent by their
// bits: refused by 5, then 1, then 4, then 11. A call reads at most three weights and three offsets, and
// copies no array. An entry past an array's end reads as a NaN, which refuses by 11.
pub fn answer_in_bits<'a>(
    steps: u32,
    w: &'a [u64],
    log_offset: &'a [u64],
    n: usize,
    k: f64,
    base: f64,
    q: i64,
) -> Answer
    ensures { result ≡ read_by (Outcome.Done steps) (lent n (floats w.now) (floats log_offset.now)) k base q }
{
    let v = Lent { w, log_offset, n };
    crate::from_vector::with_steps(crate::places::distances_in(v, Scale { k, base }, q), steps)
}
