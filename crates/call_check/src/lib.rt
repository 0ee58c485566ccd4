//! Calls of a set of files that disagree with the procedures that they call. Sections 15.5 to 15.9 of the standard, ANSI X3.9-1978.
#![tactic(auto)]

mod arguments;
mod bindings;
pub mod check;
mod expressions;
mod findings;
mod known;
mod order;
mod procedures;
mod reasons;
mod statements;

pub use check::check_calls;
