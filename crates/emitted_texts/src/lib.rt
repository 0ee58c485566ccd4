//! The second layer of the translator: a lowered text and its C function, side by side. The functions here do nothing; their contracts are the laws.
#![tactic(auto)]

pub mod examples;
pub mod texts;
