//! The text of a C tree: the printer of the house form.
//!
//! A text has one statement or declaration on a line, four blanks for each level, a heading for
//! each part of a file and of a function, and parentheses exactly where the grammar needs them to
//! give the tree back.
#![tactic(auto)]

mod expression;
mod file;
mod level;
mod local;
mod out;
mod phrase;
mod statement;
mod types;

pub use file::print_c;
