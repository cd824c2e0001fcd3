// The cases that 01 marks with P, as one table with one theorem. This crate has no code.
#![tactic(auto)]
