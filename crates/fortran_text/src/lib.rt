//! The text of a FORTRAN 77 file, from its bytes to its statements, and the rows by which a file is
//! refused there. Section 3 of the standard, ANSI X3.9-1978. The definitions stand in `specs/`; here
//! are the types that they and the code share.
#![tactic(auto)]

mod characters;
mod source;

pub use characters::{Character, Standing};
pub use source::{CardKind, Statement};
