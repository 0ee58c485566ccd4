//! Which names of a program unit are not declared where each has to be (F21). Sections 4.1.2, 8.4, 15.4 and 15.5.1 of the standard,
//! ANSI X3.9-1978, and MIL-STD-1753.
#![tactic(auto)]

mod definition_rows;
mod name_rows;
pub mod stands;
pub mod undeclared;

pub use undeclared::undeclared_fault;
