//! That the printed C files of plain units that call each other are faithful to their FORTRAN files. The function here does nothing; its contract is the theorem.
#![tactic(auto)]

pub mod faithful_files;
