// Queries on subtrees: their numbers and sizes.
#![tactic(auto)]

pub mod subtrees;
