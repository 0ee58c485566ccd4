//! That the names of what keeps the bounds of dummy arrays are told apart. CSTR 149.
#![tactic(auto)]

pub mod names;
