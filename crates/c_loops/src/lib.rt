//! Proofs alone: statements that are built from items have exactly the loops that are said to begin at these, and name no labels but theirs. C89, 3.6.
#![tactic(auto)]

pub mod built;
