//! That the C file of a main program of numbers is faithful to the FORTRAN file of that program. The function here does nothing; its contract is the law.
#![tactic(auto)]

pub mod mains;
