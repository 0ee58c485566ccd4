//! That the C file of a main program is well formed: some tokens spell it. The functions here do nothing; their contracts are the laws.
#![tactic(auto)]

pub mod texts;
