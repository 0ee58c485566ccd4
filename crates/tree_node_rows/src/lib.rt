//! The nodes of a unit that is written out, as rows. Sections 3.5 and 15.4 of the standard, ANSI X3.9-1978.
#![tactic(auto)]

pub mod rows;
