// The exact side of every reading: the inverse over fractions reduced to systems over whole numbers. No functions.
#![tactic(auto)]
