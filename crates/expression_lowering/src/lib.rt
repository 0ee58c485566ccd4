//! Expressions lowered: from its tree and a table of the names, an expression's steps and its value behind them. Sections 5.4, 6, 15.2 to 15.5,
//! 15.9 and 15.10 of the standard, ANSI X3.9-1978.
//!
//! Not lowered are substrings, concatenations, LEN, and statement functions with their arguments: `is_lowered` tells. A temporary's number is a
//! `usize`; where none is left, memory has run out.
#![tactic(auto)]

mod answers;
mod closing;
mod coverage;
mod expressions;
mod guards;
mod intrinsics;
mod leaves;
mod operators;
mod outcome;
mod purpose;
mod references;

pub use answers::{LowerError, Lowered};
pub use coverage::is_lowered;
pub use intrinsics::function_named;
pub use outcome::{has_reference, lower_actual, lower_value};
pub use purpose::{Aspect, Purpose};
