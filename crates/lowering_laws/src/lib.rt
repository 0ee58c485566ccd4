//! Laws of lowering: that the steps of an expression, and of a statement, do what the FORTRAN meaning says. The functions here do nothing;
//! their contracts are the laws.
#![tactic(auto)]

pub mod expressions;
pub mod statements;
