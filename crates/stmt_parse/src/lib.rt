//! From the pieces of a statement to the tree that they spell. Sections 7 to 16 of the standard, ANSI X3.9-1978.
#![tactic(auto)]

mod statement;

pub use expression_parse::Failure;
pub use statement::parse_statement;
