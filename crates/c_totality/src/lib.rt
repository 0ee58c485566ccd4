//! The C meaning never comes to a form without meaning in well-formed, linked files. The functions here do nothing; their
//! contracts are the laws.
#![tactic(auto)]

pub mod totality;
