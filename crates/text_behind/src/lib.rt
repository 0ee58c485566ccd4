//! A lowered text behind what keeps the bounds of dummy arrays when a procedure begins. Sections 5.1.1, 5.5.1 and 11 of the standard, ANSI X3.9-1978.
#![tactic(auto)]

mod labels;
mod steps;
mod text;

pub use text::behind;
