//! Proofs alone: the C functions of translated files have few steps for the trees of their units. Sections 2.4 and 3.5 of the standard, ANSI X3.9-1978; C89, 3.6.
#![tactic(auto)]

pub mod bounded;
