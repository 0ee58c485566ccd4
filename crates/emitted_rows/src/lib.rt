//! Program units whose C functions are given, and computed to be what the law of procedures asks for. The functions here do nothing; their contracts are
//! the rows.
#![tactic(auto)]

pub mod examples;
