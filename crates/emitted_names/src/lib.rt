//! That each name in an emitted item is known. The function here does nothing; its contract is the law.
#![tactic(auto)]

pub mod names;
