// Ranges in a plain list, STRIDE numbers to a range: its start, its end, and 0 for Forward or 1 for Reversed. They are written and read here alone.
ghost use Rattle.std.specs.Prelude.{◌≡◌, [], ◌∷◌, ◌+◌, ◌*◌, ◌≤◌, length};
ghost use Rattle.ranges.specs.Flat.{stride, direction_of, range_at};
ghost use Rattle.ranges.specs.Inner.{written, Slot};

use crate::kinds::{Direction, PathRange, STRIDE};

// The direction of a number: 0 is Forward, any other Reversed.
impl From<u32> for Direction {
    ghost from_gives = { λ code d. d ≡ direction_of code };

    fn from(code: u32) -> Self {
        if code < 1 {
            return Direction::Forward;
        }
        Direction::Reversed
    }
}

// Writes a range into a slot.
pub fn write_range(ranges: &mut [u32], slot: usize, range: PathRange)
    requires { Slot ranges.old slot range }
    ensures { ranges.new ≡ written ranges.old slot (range ∷ []) }
{
    let at = STRIDE * slot;
    ranges[at] = range.start as u32;
    ranges[at + 1] = range.end as u32;
    ranges[at + 2] = range.direction as u32;
}

// The range in slot i.
pub fn range_at(flat: &[u32], i: usize) -> PathRange
    requires { stride * i + stride ≤ length flat.now }
    ensures { result ≡ range_at flat.now i }
{
    let at = STRIDE * i;
    PathRange {
        start: flat[at] as usize,
        end: flat[at + 1] as usize,
        direction: Direction::from(flat[at + 2]),
    }
}
