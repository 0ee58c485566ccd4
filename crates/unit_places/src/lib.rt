//! Where the functions of files of several units stand, and their objects. The functions here do nothing; their contracts are the laws.
#![tactic(auto)]

pub mod places;
