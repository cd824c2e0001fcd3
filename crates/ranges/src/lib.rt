// The path from u to v as ranges of numbers: the range of each chain, ranges in a plain list, range room, rule parts.
#![tactic(auto)]

pub mod chains;
pub mod flat;
pub mod kinds;
pub mod parts;
pub mod room;
