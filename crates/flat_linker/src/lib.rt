//! Statements of a C text, linked: the items of the flat form of a function's body, one for each step, by the names in scope and the number of
//! the first string (C89, 3.6).
#![tactic(auto)]

mod bodies;
mod cases;
mod items;
mod marks;
mod sizes;
mod statements;
mod written;

pub use bodies::link_body;
