//! Proofs alone: the objects of the C files of translated files have few bytes for the storage and the trees of their units. Sections 3.5, 11.12 and 17.1 of the
//! standard, ANSI X3.9-1978; C89, 3.1.2.4 and 3.1.2.5.
#![tactic(auto)]

pub mod bounded;
