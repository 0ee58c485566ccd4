//! The rows of the table of refusals that the definitions of statement functions break: by their expressions (F22, F31, F32, F40) and by their
//! dummy arguments (F20, F40), each at its statement. Section 15.4 of the standard, ANSI X3.9-1978.
#![tactic(auto)]

mod definition;
mod dummies;
mod functions;
mod given;
mod judge;

pub use given::given_names;
pub use judge::definition_fault;
