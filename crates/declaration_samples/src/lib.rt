//! The rows of Declarations that small programs break, each as the contract of a call that does nothing.
#![tactic(auto)]

pub mod orders;
pub mod samples;
pub mod storage;
