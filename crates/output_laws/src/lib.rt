//! List-directed output in FORTRAN and by the C library, side by side. The functions here do nothing; their contracts are the laws.
#![tactic(auto)]

pub mod outputs;
