// Heavy-chain numberings of a rooted tree: definitions in specs/, laws in proofs/. This crate has no code.
#![tactic(auto)]
