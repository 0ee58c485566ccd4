//! Laws of the grammar of a C text (C89, 3): readers without derivations give exactly what is spelled, and refuse exactly at the first token
//! with which nothing goes on. The functions here do nothing; their contracts are the laws.
#![tactic(auto)]

pub mod declarations;
pub mod expressions;
