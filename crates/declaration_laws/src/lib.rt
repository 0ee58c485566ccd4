//! What is proved of the rows of Declarations, each as the contract of a call that does nothing.
#![tactic(auto)]

pub mod laws;
