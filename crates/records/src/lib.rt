// The ranges of a path as records in a lent slice, over the core that writes plain numbers.
#![tactic(auto)]

pub mod copies;
pub mod lists;
