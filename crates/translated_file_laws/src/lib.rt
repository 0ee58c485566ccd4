//! Proofs alone: the printed C files of FORTRAN files of which all forms are translated are faithful to them. Sections 2.4, 3.5, 14 and 15 of the standard,
//! ANSI X3.9-1978; CSTR 149.
#![tactic(auto)]

pub mod translations;
