//! The names of statements and how each is used. Section 18 of the standard, ANSI X3.9-1978.
#![tactic(auto)]

pub mod arrays;
pub mod assignments;
pub mod declarations;
pub mod expressions;
pub mod items;
pub mod statements;
pub mod uses;

pub use arrays::array_set;
pub use statements::add_statement_uses;
pub use uses::{Manner, Use};
