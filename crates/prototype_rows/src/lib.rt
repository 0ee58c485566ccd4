//! The prototypes of a small file: rows that are computed from its tree.
#![tactic(auto)]

pub mod rows;
