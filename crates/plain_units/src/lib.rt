//! That the units for which a test computes to true are plain. The functions here do nothing; their contracts are the laws.
#![tactic(auto)]

pub mod units;
