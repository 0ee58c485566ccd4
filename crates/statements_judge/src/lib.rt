//! The first of the rows that the statements of a unit break, each at its place. Sections 10 to 13 and 15.6 of the standard, ANSI X3.9-1978.
#![tactic(auto)]

mod forms;
mod judge;
mod labels;
mod loops;

pub use judge::statements_fault;
