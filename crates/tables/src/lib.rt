// Working tables of 1,024 numbers, 32 to a row, and working vectors of 32: places and rows of them. How many rows are in use
// is a plain number, r ≤ 32 in each contract: a type for it would be taken apart at every loop.
#![tactic(auto)]

pub mod row;
pub mod vector;
