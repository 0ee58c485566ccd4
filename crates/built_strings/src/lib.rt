//! Proofs alone: statements that are built from items have no strings but those of the items. C89, 3.1.4 and 3.6.
#![tactic(auto)]

pub mod strings;
