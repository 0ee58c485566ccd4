//! Structured C statements from flat items by their names. C89, 3.6.
#![tactic(auto)]

mod alike;
mod builder;
mod cases;
mod growth;
mod loop_tests;
mod parts;
mod plan;
mod planning;
mod span;

pub use builder::build_statements;
