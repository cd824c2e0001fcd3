// The lent graph: the list of a vertex, the tests that read offsets and targets once, marks of one bit to a vertex, and the
// beginning and the end of a call that takes a graph.
#![tactic(auto)]

pub mod call;
pub mod lists;
pub mod marks;
pub mod work;
