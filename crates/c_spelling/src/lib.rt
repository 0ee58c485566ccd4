//! That the printed text of a C tree spells the tree. The functions here do nothing; their contracts are the laws.
#![tactic(auto)]

pub mod spelling;
