//! Laws of the refusals of cards and of names in C: each is told in one way. The functions here do nothing; their contracts are the laws.
#![tactic(auto)]

pub mod laws;
