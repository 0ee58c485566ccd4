//! What each name of a program unit is: its class, its type, its length, its dimensions and the value of a constant, in a table that a name is
//! looked up in. Sections 4.1, 5.1, 8 and 18 of the standard, ANSI X3.9-1978.
#![tactic(auto)]

mod fact;
mod table;

pub use fact::{Bound, ConstantValue, NameFact, all_closed};
pub use table::NameFacts;
