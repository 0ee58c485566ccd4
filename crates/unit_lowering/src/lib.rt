//! Program units lowered: the steps of their statements in their order, with the ends of the loops and of the arms, the steps of their labels, and
//! the marks of loops and arms. Sections 3.5, 11.6 to 11.10 and 15 of the standard, ANSI X3.9-1978.
#![tactic(auto)]

mod assigned;
mod forms;
mod labels;
mod lines;
mod marks;
mod numbered;
mod steps;
mod turns;
mod unit;

pub use unit::{lower_unit, units_are_lowered_to_their_steps};
