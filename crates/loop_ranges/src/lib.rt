//! Where the loops of a unit end, and which of their ranges cross (F29). Section 11.10 of the standard, ANSI X3.9-1978, and MIL-STD-1753.
#![tactic(auto)]

pub mod crossing;
pub mod ends;
pub mod faults;
mod firsts;
pub mod forms;
pub mod labels;

pub use ends::{loop_ends, terminal_places};
pub use faults::{add_crossing_rows, crossing_fault};
