// What calls answer: 01's refusals and limits by their names, the answers of queries, and the tests that come before a query.
#![tactic(auto)]

pub mod answer;
pub mod asked;
pub mod limits;
