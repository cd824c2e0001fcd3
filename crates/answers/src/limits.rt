// 01's limits by their names. Array sizes are worked out from them.

// The most vertices and targets of a graph.
pub const MAX_VERTICES: usize = 32_768;

pub const MAX_TARGETS: usize = 65_535;

// The most entries that a rule store may have.
pub const MAX_STORE: usize = 32_768;

// The entry of a vertex without parent.
pub const NO_PARENT: u32 = 4_294_967_295;

// The most chains that one side of a climb may leave: the floor of log2 of the most vertices.
pub const MOST_CHAINS: usize = 15;

// The most ranges of a path, on any tables: the chains of both sides, and the last one.
pub const MOST_RANGES: usize = 2 * MOST_CHAINS + 1;
