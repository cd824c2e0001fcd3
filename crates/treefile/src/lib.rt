// The input and the output of the program `treepaths`, as values: what a well-formed file is and means, and the bytes of a report.
#![tactic(auto)]

pub mod judge;
pub mod lines;
pub mod listing;
pub mod page;
pub mod parse;
pub mod query;
pub mod words;
