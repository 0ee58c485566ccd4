//! Whether the statements of a program unit are those that the translator's law knows, the last one being END. Sections 9 to 12 of the standard,
//! ANSI X3.9-1978.
#![tactic(auto)]

mod assignments;
mod definitions;
mod lines;
mod references;
mod statements;

pub use lines::are_lines_direct;
