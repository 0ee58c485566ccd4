//! Trees of the C subset that the translator writes and the runner reads, and the words in which
//! a run of such a text ends.
//!
//! The trees have one node for each production of the subset's grammar, and no node for
//! parentheses. A list is an `Items` and a part of its own kind a `Boxed`, so that contracts see
//! plain lists and values.
#![tactic(auto)]

pub mod declaration;
pub mod expression;
pub mod file;
pub mod outcome;
pub mod statement;
pub mod types;
