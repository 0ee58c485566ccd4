//! When a source is accepted for translation, or for the check of its calls, which is its first refusal, and the laws of both. The functions here do nothing; their contracts are
//! the laws.
#![tactic(auto)]

pub mod laws;
