//! From the file of a main program to its runs. The functions here do nothing; their contracts are the laws.
#![tactic(auto)]

pub mod programs;
