// Centroid decomposition and component lists.
#![tactic(auto)]

pub mod decompose;
pub mod regions;
pub mod search;
pub mod tables;
