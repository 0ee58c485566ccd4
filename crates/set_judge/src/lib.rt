//! The rows of the table of refusals that speak of the names which the units of a set share: names of two things, and main programs. Sections
//! 2.4 and 18.1 of the standard, ANSI X3.9-1978.
#![tactic(auto)]

pub mod globals;
pub mod judge;

pub use judge::global_fault;
