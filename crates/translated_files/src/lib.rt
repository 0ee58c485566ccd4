//! Definitions alone: the C file of a FORTRAN file of units that call each other, and the statements of forms that are not translated. Sections 2.4, 4.1, 8 to 12,
//! 14 and 15 of the standard, ANSI X3.9-1978.
#![tactic(auto)]
