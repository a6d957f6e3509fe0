// The accuracy rule, demand 3, for every reading. No functions.
#![tactic(auto)]
