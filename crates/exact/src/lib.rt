#![tactic(auto)]

// Exact theory: statements in specs/, proofs in proofs/. This crate has no functions.
