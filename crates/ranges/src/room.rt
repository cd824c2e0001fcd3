// How many ranges a path can have.
ghost use Rattle.std.specs.Prelude.{◌≤◌, ◌≡◌};
ghost use Rattle.numbering.specs.Log.{log2};
ghost use Rattle.ranges.specs.Calls.{range_room};

use answers::answer::{Answer, Refusal};
use answers::limits::MAX_VERTICES;

// The bits of a usize.
const BITS: usize = 64;

// floor(log2 n) for an n from 1 on: the place of its highest set bit, counted from 0. Above it stand the leading zeros.
fn floor_log2(n: usize) -> usize
    requires { 1 ≤ n }
    ensures { result ≡ log2 n }
{
    BITS - 1 - usize::leading_zeros(n) as usize
}

// The number of ranges that is enough for every path among n vertices.
pub fn range_room(n: usize) -> Answer
    ensures { result ≡ range_room n }
{
    if n < 1 || MAX_VERTICES < n {
        return Err(Refusal::BadSize);
    }
    Ok(2 * floor_log2(n) + 1)
}
