// The calls for the ranges of a path: on any lent tables, into a lent list or by value.
#![tactic(auto)]

pub mod lists;
pub mod values;
pub mod writes;
