//! What is found of the calls of small sets of units: rows that are computed from trees.
#![tactic(auto)]

pub mod rows;
