//! The parts of a statement: its expressions, in the order in which they are written, and the reference that CALL makes. Sections 6, 10 to 12
//! and 15 of the standard, ANSI X3.9-1978.
#![tactic(auto)]

pub mod calls;
pub mod expressions;

pub use calls::{CallPart, call_part};
pub use expressions::add_expressions;
