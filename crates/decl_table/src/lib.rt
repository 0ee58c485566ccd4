//! What each name of a program unit is, from all its statements: its class, its type, its length, its dimensions with their constant bounds, and
//! the value of a constant. Sections 4.1, 5.1, 8 and 18 of the standard, ANSI X3.9-1978.
#![tactic(auto)]

mod bounds;
mod constants;
mod declarations;
mod facts;
mod functions;
mod widths;

pub use declarations::{Declarations, unit_declarations};
pub use facts::{name_facts, own_fact};
pub use widths::width_by;
