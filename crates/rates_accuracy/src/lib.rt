// How near the steps for leaving rates come to the exact solution, and that no pivot is zero. No functions.
#![tactic(auto)]
