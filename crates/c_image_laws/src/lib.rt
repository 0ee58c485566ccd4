//! Laws of the storage of a FORTRAN run among the objects of a C run. The functions here do nothing; their contracts are the laws.
#![tactic(auto)]

pub mod calls;
pub mod defining;
pub mod reading;
pub mod values;
