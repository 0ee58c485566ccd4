//! References of statement functions that expand to too much (F40). Section 15.4 of the standard, ANSI X3.9-1978.
#![tactic(auto)]

mod counts;
mod functions;
pub mod judge;

pub use judge::expansion_fault;
