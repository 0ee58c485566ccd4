//! Laws of the FORTRAN definitions that other crates stand on: folds of trees, cards and statements of a file, names in C,
//! settings, nests of loops, runs by steps and their first range act. The functions here do nothing; their contracts are the laws.
#![tactic(auto)]

pub mod nests;
pub mod range_acts;
pub mod settings;
