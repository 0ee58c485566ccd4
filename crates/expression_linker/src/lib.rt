//! Expressions and calls of a C text, linked: their names and strings are the numbers of objects and functions (C89, 3.3). A name that
//! stands for nothing is an answer of its own, since the data of a linked expression have no form for it.
#![tactic(auto)]

mod calls;
mod failure;
mod mentions;
mod scope;
mod strings;
mod terms;
mod things;

pub use calls::{LinkedCalling, link_call};
pub use failure::LinkFail;
pub use mentions::{call_mentions, expression_mentions};
pub use scope::NameScope;
pub use strings::{put_call_strings, put_string, put_strings};
pub use terms::link_expression;
pub use things::NamedThing;
