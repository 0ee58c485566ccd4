//! From a statement of a file to its tree, or to the first row of refusals that it breaks. Sections 3 to 16 of the standard, ANSI X3.9-1978.
#![tactic(auto)]

mod reader;

pub use reader::read_statement;
