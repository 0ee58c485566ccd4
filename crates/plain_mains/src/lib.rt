//! Which written main programs are plain, by a test that computes. The function here does nothing; its contract is what the test tells.
#![tactic(auto)]

pub mod tells;
