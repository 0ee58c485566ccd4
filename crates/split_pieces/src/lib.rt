//! The pieces of a file, one for each program unit, and the names of the files that they are written to. Sections 11.14 and 14 to 16 of the
//! standard, ANSI X3.9-1978. The definitions stand in `specs/`; here are the types that they and the code share.
#![tactic(auto)]

mod wanted;

pub use wanted::{Wanted, WantedName};
