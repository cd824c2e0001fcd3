// What queries answer on a heavy-chain numbering: theorems in proofs/. This crate has no code.
#![tactic(auto)]
