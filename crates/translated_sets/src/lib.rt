//! Proofs alone: the texts of a set of FORTRAN files that is accepted for translation are faithful to it. Sections 2.4 and 14 of the standard, ANSI
//! X3.9-1978; CSTR 149.
#![tactic(auto)]

pub mod sets;
