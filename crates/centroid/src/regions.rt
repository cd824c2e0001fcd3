// The regions of work, n entries each, in this order: region k begins at index k * n.
// The starts of the components that are still to be searched, first in, first out; the centroids above them; and their levels.
pub const STARTS: usize = 0;

pub const PARENTS: usize = 1;

pub const LEVELS: usize = 2;

// Marks of the removed vertices, one bit to a vertex.
pub const REMOVED: usize = 3;

// One component: its vertices by position, the position from which each was met, and the sizes.
pub const QUEUE: usize = 4;

pub const FROM: usize = 5;

pub const SIZES: usize = 6;

// The level of each vertex, where no table is lent for it.
pub const LEVEL_OF: usize = 7;
