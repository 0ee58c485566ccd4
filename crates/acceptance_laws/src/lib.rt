//! What the verdict of a translation says by the whole table of refusals.
#![tactic(auto)]

pub mod laws;
