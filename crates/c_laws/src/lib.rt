//! Laws of C texts and of the C meaning. The functions here do nothing; their contracts are the laws.
#![tactic(auto)]

pub mod laws;
pub mod text_laws;
