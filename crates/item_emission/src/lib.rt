//! The C items of a program unit's lowered steps, by names: values over numbers, assignments, tests, jumps, `switch`, list-directed output, STOP, calls of
//! procedures and their returns, as definitions, and that those of a main program are those of the flat items. ANSI X3.9-1978, sections 6, 10 to 13 and 15;
//! C89, 3.3 and 3.6.
#![tactic(auto)]

pub mod agreement;
pub mod known;

pub use known::{Dimension, Giving, LowerBound, Size, Standing};
