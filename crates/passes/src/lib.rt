// No code: the steps for leaving rates as operations on whole tables, and that they are document 01's steps.
#![tactic(auto)]
