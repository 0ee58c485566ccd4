//! When a set of FORTRAN files is accepted, and at which file and card it is refused first, by all rows of refusals. Sections 3 to 18 of the
//! standard, ANSI X3.9-1978. The definitions stand in `specs/`.
#![tactic(auto)]
