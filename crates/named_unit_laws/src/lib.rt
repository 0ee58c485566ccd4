//! That the functions of units that are made from items by names are those of their lowered texts. The function here does nothing; its contract is the law.
#![tactic(auto)]

pub mod bodies;
