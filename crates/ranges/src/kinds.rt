// The kinds of ranges, the pieces of a path, and a range.
ghost use Rattle.std.specs.Prelude.{◌≡◌};
ghost use Rattle.ranges.specs.Ranges.{piece};

// How a range is read: from its first number to its last, or the other way.
#[derive(Clone, Copy, PartialEq, Eq)]
pub enum Direction {
    Forward = 0,
    Reversed = 1,
}

// The vertices that a path has on one chain: their numbers from `from` up to `to`, the end excluded, and how they are read.
#[derive(Clone, Copy)]
pub struct Piece {
    pub from: usize,
    pub to: usize,
    pub direction: Direction,
}

impl Piece {
    // The piece with the numbers from `from` up to `to`, read in a direction.
    pub fn new(from: usize, to: usize, direction: Direction) -> Self
        ensures { result ≡ piece from to direction }
    {
        Self {
            from,
            to,
            direction,
        }
    }
}

// The numbers from start up to end, the end excluded.
#[derive(Clone, Copy)]
pub struct PathRange {
    pub start: usize,
    pub end: usize,
    pub direction: Direction,
}

// How many numbers a range is in a plain list.
pub const STRIDE: usize = 3;

// Vertices, edges by their children, or both in the doubled numbers.
#[derive(Clone, Copy, PartialEq, Eq)]
pub enum Kind {
    Vertices,
    Edges,
    Both,
}
