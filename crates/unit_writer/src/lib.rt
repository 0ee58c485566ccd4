//! The C function of one program unit among several that call each other, from its lowered text: the items of what it keeps of its dummy arrays and of its
//! steps, the statements that they have, its parameters and the declarations of what it names; and the C file of such functions. Sections 5, 10 to 12, 14 and 15 of the standard, ANSI
//! X3.9-1978; C89, 3.5 to 3.7; CSTR 149.
#![tactic(auto)]

mod bounds;
mod emission;
mod files;
mod functions;
pub mod heading;
mod locals;
mod procedures;
mod statements;
mod telling;
mod writing;

pub use files::write_file;
pub use heading::{BoundKind, Dummy, Heading, KeptBound, Procedure, UnitRole};
pub use writing::write_unit;
