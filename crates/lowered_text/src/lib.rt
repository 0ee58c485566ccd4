//! The lowered text of a program unit as data: its steps, the steps of its labels, and the marks of its loops and arms. What it means is said of
//! the text of `l_core`, which `specs/` reads off it. Sections 3.5, 11 and 15 of the standard, ANSI X3.9-1978.
#![tactic(auto)]

pub mod kept;
pub mod text;

pub use kept::Kept;
pub use text::{LoweredText, Mark, Marked};
