//! That units of numbers that call each other run as the C files that are made for them. The functions here do nothing; their contracts are the laws.
#![tactic(auto)]

pub mod units;
