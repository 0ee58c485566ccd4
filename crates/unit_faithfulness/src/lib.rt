//! That the C files that are made for files of units of numbers that call each other are faithful to them. The function here does nothing; its contract
//! is the law.
#![tactic(auto)]

pub mod units;
