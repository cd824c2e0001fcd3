// Queries on any lent tables that read one vertex or look up an ancestor. Each entry that a query uses is tested. What each query answers is defined
// here for all of them; distance, LCA and jumps stand in the crate between, subtrees in sizes.
#![tactic(auto)]

pub mod ancestors;
pub mod reads;
