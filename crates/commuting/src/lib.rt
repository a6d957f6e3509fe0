// No code: moving units commutes with the table, and two moves are one (document 02, U9).
#![tactic(auto)]
