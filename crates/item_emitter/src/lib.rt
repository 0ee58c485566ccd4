//! The C items of a program unit's lowered steps, by names: values over numbers, assignments, functions of the library, tests, jumps, `switch`,
//! list-directed output, STOP, calls of procedures and their returns. ANSI X3.9-1978, sections 6, 10 to 13 and 15; C89, 3.3 and 3.6.
#![tactic(auto)]

mod arguments;
mod arithmetic;
mod calls;
mod elements;
mod functions;
pub mod known;
mod library;
mod positions;
mod procedures;
mod selection;
mod steps;
mod stops;
mod types;
mod values;

pub use known::{Known, Routine, Variable};
pub use steps::emit_step;
pub use values::value;
