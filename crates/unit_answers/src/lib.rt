//! How a call of the library on an external unit ends (ANSI X3.9-1978, 12.5 to 12.10; CSTR 149, appendix on the run time library): by a
//! number that its caller gets, by a fault, by the end of the run, or since the device of the unit failed.
#![tactic(auto)]

mod ends;

pub use ends::{CallEnd, numbered, refused};
