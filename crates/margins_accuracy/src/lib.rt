// How near the steps for margins come to the exact solution. No functions.
#![tactic(auto)]
