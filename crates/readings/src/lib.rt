// What lists of ranges read on a heavy-chain numbering: theorems in proofs/. This crate has no code.
#![tactic(auto)]
