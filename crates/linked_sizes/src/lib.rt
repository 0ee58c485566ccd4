//! Proofs alone: how many bytes the objects of linked C files of program units have. C89, 3.1.2.4, 3.1.2.5 and 3.5.7.
#![tactic(auto)]

pub mod sized;
