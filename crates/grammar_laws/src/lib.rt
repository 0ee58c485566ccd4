//! Laws of the grammar of statements: each text spells one tree at most, and the readers without derivations give exactly what is spelled.
//! The functions here do nothing; their contracts are the laws.
#![tactic(auto)]

pub mod expressions;
pub mod files;
pub mod statements;
