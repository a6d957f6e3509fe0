#![tactic(auto)]

// The definitions of document 01 stand in specs/. This crate has no functions.
