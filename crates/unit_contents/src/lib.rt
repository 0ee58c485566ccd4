//! What the C function of a unit that calls others has, read off its lowered text: control lists, temporaries, functions of the library, procedures that
//! are called or passed, strings, labels, arms and loops; and the constants of its file. Sections 4.1, 11, 12 and 15 of the standard, ANSI X3.9-1978;
//! C89, 3.5 and 3.6.
#![tactic(auto)]

mod constants;
pub mod contents;
mod firsts;
mod kinds;
mod layout;
mod outputs;
mod procedures;
mod reading;
mod steps;
mod targets;
mod walks;

pub use constants::{add_constants, listed_constants};
pub use contents::{Calls, Contents, Listing};
pub use reading::contents_of;
