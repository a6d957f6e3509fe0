// Laws of the definitions of the steps, one equation each: proofs/. This crate has no functions.
#![tactic(auto)]
