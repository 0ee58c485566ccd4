//! Program units whose lowering is computed, and some of them as instances of the law of statements. The functions here do nothing; their contracts are
//! the rows.
#![tactic(auto)]

pub mod examples;
