//! That the printed C file of a plain main program is faithful to its FORTRAN file. The function here does nothing; its contract is the theorem.
#![tactic(auto)]

pub mod faithful_files;
