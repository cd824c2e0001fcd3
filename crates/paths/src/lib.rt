// Walks, simple paths, rooted trees and 01's definition of a tree: definitions in specs/, theorems in proofs/. This crate has no code.
#![tactic(auto)]
