// Heavy-light decomposition: the six tables of a tree.
#![tactic(auto)]

pub mod build;
