// Laws of centroid decompositions and component lists: theorems in proofs/. This crate has no code.
#![tactic(auto)]
