//! Whether a set of units is well formed is computed, in both directions, as the contract of a function that does nothing.
#![tactic(auto)]

pub mod checks;
