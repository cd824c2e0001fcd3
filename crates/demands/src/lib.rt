// The customer's three conditions of acceptance, each as one record in specs/ with its theorem in proofs/. This crate has no code.
#![tactic(auto)]
