// Queries that climb from two vertices: the distance, the LCA and jumps. Each vertex that is asked about is reached once, and its place is
// handed on.
#![tactic(auto)]

pub mod distance;
pub mod jump;
pub mod lca;
