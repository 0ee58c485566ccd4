//! Proofs alone: the statements of a program unit as they are read have few nodes for each node of its tree. Sections 6, 10 to 12 and 15 of the standard,
//! ANSI X3.9-1978.
#![tactic(auto)]

pub mod within;
