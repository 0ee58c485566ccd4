//! Proofs alone: statements that are built from items have a flat step for each item. C89, 3.6.
#![tactic(auto)]

pub mod sized;
