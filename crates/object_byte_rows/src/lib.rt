//! The bytes of sequences, the nodes and the texts of STOP statements of two files that are written out, as rows. Sections 3.5, 11.12 and 17.1 of the standard,
//! ANSI X3.9-1978.
#![tactic(auto)]

pub mod rows;
