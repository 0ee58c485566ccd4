//! The command that splits a file: one new file for each program unit, and their names on standard output. Sections 11.14 and 14 to 16 of the
//! standard, ANSI X3.9-1978.
#![tactic(auto)]

mod failing;
mod listing;
mod splitting;

pub use failing::SplitFail;
pub use splitting::split_place;
