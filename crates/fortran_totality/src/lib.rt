//! The FORTRAN meaning never comes to a form without meaning in well-formed units. The functions here do nothing; their
//! contracts are the laws.
#![tactic(auto)]

pub mod totality;
