//! Laws of the grammar of the statements of a C text (C89, 3.6): readers without derivations give exactly what is spelled, and refuse exactly at
//! the first token with which nothing goes on. The functions here do nothing; their contracts are the laws.
#![tactic(auto)]

pub mod statements;
