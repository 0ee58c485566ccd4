//! The first of all rows of declarations that the units of a set break. Sections 3 to 18 of the standard, ANSI X3.9-1978.
#![tactic(auto)]

mod parts;
mod set;
mod tables;
mod unit;

pub use set::set_fault;
pub use unit::unit_fault;
