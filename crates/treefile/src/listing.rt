// Ranges as start-end with R or F, read from a flat list.
ghost use Rattle.std.specs.Prelude.{◌≡◌, ◌++◌, ◌+◌, ◌*◌, ◌≤◌, length};
ghost use Rattle.treefile.specs.Report.{space, letter as letter_of, range_text, ranges_text};
ghost use Rattle.ranges.specs.Flat.{stride, range_at, ranges_in};
ghost use Rattle.treefile.specs.Writing.{Room, Prints};

use crate::page::Page;
use ranges::flat::range_at;
use ranges::kinds::{Direction, PathRange};

// The letter of a direction.
fn letter(direction: Direction) -> u8
    ensures { result ≡ letter_of direction }
{
    match direction {
        Direction::Forward => b'F',
        Direction::Reversed => b'R',
    }
}

impl<'a> Page<'a> {
    // One range.
    pub fn put_range(&mut self, range: PathRange)
        requires { Room (range_text range) self.old }
        ensures { Prints (range_text range) self.old self.new }
    {
        self.put_decimal(range.start);
        self.put_byte(b'-');
        self.put_decimal(range.end);
        self.put_byte(letter(range.direction));
    }

    // A space, and the range at place i of a flat list behind it.
    fn put_range_at(&mut self, flat: &[u32], i: usize)
        requires { (stride * i + stride ≤ length flat.now) × Room (space ++ range_text (range_at flat.now i)) self.old }
        ensures { Prints (space ++ range_text (range_at flat.now i)) self.old self.new }
    {
        self.put_byte(b' ');
        self.put_range(range_at(flat, i));
    }

    // The first ranges of a flat list, each behind a space.
    pub fn put_ranges(&mut self, flat: &[u32], count: usize)
        requires { (stride * count ≤ length flat.now) × Room (ranges_text (ranges_in count flat.now)) self.old }
        ensures { Prints (ranges_text (ranges_in count flat.now)) self.old self.new }
    {
        for i in 0..count {
            self.put_range_at(flat, i);
        }
    }
}
