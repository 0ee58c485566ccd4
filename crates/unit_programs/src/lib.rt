//! From the files of several units to their runs. The functions here do nothing; their contracts are the laws.
#![tactic(auto)]

pub mod examples;
pub mod programs;
