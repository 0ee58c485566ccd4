//! The values of linked expressions over the objects of a run, or the first fault in order of operands, and the places that they name
//! (C89, 3.3). No call but `values_of` takes memory.
#![tactic(auto)]

mod direct;
mod fields;
mod numbers;
mod operators;
mod pointers;
mod terms;
mod values;

pub use direct::{NumberPlace, number_place};
pub use values::{number_of, place_named, test_of, value_of, values_of};
