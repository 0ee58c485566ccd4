//! A card of a source begins one statement at most. The function here does nothing; its contract is the law.
#![tactic(auto)]

pub mod laws;
