//! That the C file of units that call each other is well formed: some tokens spell it, and so does its printed text. The functions here do nothing; their
//! contracts are the laws.
#![tactic(auto)]

pub mod texts;
