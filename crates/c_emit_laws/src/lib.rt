//! Laws of emission: that the C expressions for the values of a lowered unit have those values. The functions here do nothing; their contracts
//! are the laws.
#![tactic(auto)]

pub mod examples;
pub mod flats;
pub mod steps;
pub mod values;
