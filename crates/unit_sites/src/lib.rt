//! The C files of a set of FORTRAN files, and where the function of each of their units stands among them: definitions alone, and they stand in
//! `specs/`.
#![tactic(auto)]
