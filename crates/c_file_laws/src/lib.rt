//! Laws of the grammar of a C file (C89, 3.7): readers without derivations give exactly what is spelled, and refuse exactly at the first token
//! with which nothing goes on. The functions here do nothing; their contracts are the laws.
#![tactic(auto)]

pub mod files;
pub mod parts;
