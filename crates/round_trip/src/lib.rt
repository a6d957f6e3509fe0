// No code: loading a saved file, and saving a loaded one (document 02, U1).
#![tactic(auto)]
