// No code: the steps on numbers that are all times a power of two (document 02, U9).
#![tactic(auto)]
