//! The least of the rows that a statement breaks, given what the names and the labels of its unit are. Sections 10 to 13 and 15.6 of the
//! standard, ANSI X3.9-1978.
#![tactic(auto)]

mod controls;
mod lists;
mod loops;
mod site;
mod statement;
mod targets;

pub use site::{Broken, Site};
pub use statement::judge_statement;
