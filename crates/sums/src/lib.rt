// Finite sums, counts and the pigeonhole: definitions in specs/, laws in proofs/. This crate has no code.
#![tactic(auto)]
