// Answers in the form that C takes: a code, and the values through numbers lent for them. The crate relaypath_c exports each call with its answer
// handed over so.
#![tactic(auto)]

pub mod handed;
pub mod parts;
