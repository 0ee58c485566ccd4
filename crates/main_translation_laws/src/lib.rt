//! That a main program of numbers runs as the C file that is made for it. The functions here do nothing; their contracts are the laws.
#![tactic(auto)]

pub mod mains;
