//! What the loops of a unit make of each of its statements: the first temporary that no open loop keeps, and the loops that end there. Section
//! 11.10 of the standard, ANSI X3.9-1978, and MIL-STD-1753.
#![tactic(auto)]

mod places;
mod ranges;
mod temporaries;
mod walk;

pub use places::{LoopPlace, loop_places};
