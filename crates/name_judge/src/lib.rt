//! The rows of the table of refusals that the names of a program unit break: by their types (F20), by what they are (F22), by their lengths and
//! bounds (F23, F24) and by the values of constants (F26), each at its statement. Sections 4.1, 5.1, 8, 15.4 and 18 of the standard,
//! ANSI X3.9-1978.
#![tactic(auto)]

mod bounds;
mod judge;
mod kinds;
mod rows;
mod tables;

pub use judge::name_fault;
