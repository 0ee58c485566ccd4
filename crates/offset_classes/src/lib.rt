//! Numbers that begin so many units behind others, as equations say: their classes, and where each number stands in its class, or the first
//! equation that contradicts those before it. Sections 8.2, 8.3 and 17.1 of the standard, ANSI X3.9-1978.
#![tactic(auto)]

mod nodes;
mod solving;

pub use nodes::{Equation, Place, Solution};
pub use solving::solve;
