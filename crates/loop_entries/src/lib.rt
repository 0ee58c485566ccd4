//! Whether the loops of a program unit are nested, each in one arm of a block or around the whole of it, and entered by its DO alone. Sections 11.1 to
//! 11.10 of the standard, ANSI X3.9-1978; MIL-STD-1753 for DO WHILE.
#![tactic(auto)]

mod arms;
mod blocks;
mod branches;
mod entering;
mod entries;
mod functions;
mod labels;
mod nested;
mod ranges;

pub use entries::do_loops_fit;
