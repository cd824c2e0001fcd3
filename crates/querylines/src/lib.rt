// The lines of a file's queries: each query answered on the tree's tables, and its line written.
#![tactic(auto)]

pub mod answer;
pub mod lines;
pub mod question;
