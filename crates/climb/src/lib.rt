// What every query on lent tables begins with: the tests before it, the one test of each vertex that it stands on, and the climb.
#![tactic(auto)]

pub mod asked;
pub mod climbing;
pub mod places;
pub mod sound;
