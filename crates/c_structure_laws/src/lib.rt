//! The C statements that are built for flat items have these items as their flat form. The functions here do nothing; their contracts are the laws.
#![tactic(auto)]

pub mod trees;
