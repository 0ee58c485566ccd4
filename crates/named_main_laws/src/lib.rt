//! Proofs alone: statements that are made from items by names are those that are made from flat items, and their strings are of bytes. Sections 10 to 12
//! of the standard, ANSI X3.9-1978; C89, 3.6.
#![tactic(auto)]

pub mod bodies;
pub mod strings;
