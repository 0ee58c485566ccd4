//! That what the function of a main program goes by is known in it. The functions here do nothing; their contracts are the laws.
#![tactic(auto)]

pub mod files;
