//! Laws of prototype files: which prototypes a text spells, where another one is refused, and that the functions of a C tree tell the prototypes of its
//! FORTRAN file. The functions here do nothing; their contracts are the laws.
#![tactic(auto)]

pub mod laws;
