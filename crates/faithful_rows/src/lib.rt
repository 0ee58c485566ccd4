//! Laws and worked instances of what it means that C texts are faithful to FORTRAN files. A function here does nothing, and its
//! contract is what is shown.
#![tactic(auto)]

pub mod bullets;
pub mod pairs;
