// Component lists: each centroid's component breadth first, from the graph alone.
#![tactic(auto)]

pub mod build;
pub mod levels;
pub mod listing;
