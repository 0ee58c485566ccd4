//! Runs whose calls agree with the procedures that they call in kind, number and type, wherever the statements of the units do. Sections 15.5.2,
//! 15.6.2 and 15.9.3 of the standard, ANSI X3.9-1978.
#![tactic(auto)]

pub mod laws;
