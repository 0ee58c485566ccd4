//! Whether a program unit is a main program, a subroutine or a function with one entry and storage of its own, whose names are integers, logicals and
//! procedures. Sections 2.4, 4.1, 5.1, 8 and 15 of the standard, ANSI X3.9-1978.
#![tactic(auto)]

mod dummies;
mod heading;
mod name;
mod parts;

pub use parts::has_plain_parts;
