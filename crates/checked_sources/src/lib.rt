//! Runs of sources that are accepted for a check of their calls and of whose calls none is found to disagree. The function here does nothing; its
//! contract is the law.
#![tactic(auto)]

pub mod laws;
