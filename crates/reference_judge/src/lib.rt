//! References of external procedures that differ in their arguments (F43), and functions of type CHARACTER that are dummy procedures or are
//! passed (F42). Sections 15.5.2, 15.6.2 and 15.9.3 of the standard, ANSI X3.9-1978.
#![tactic(auto)]

mod arguments;
mod bindings;
mod functions;
pub mod judge;
mod references;
mod shapes;
mod statements;

pub use judge::reference_fault;
