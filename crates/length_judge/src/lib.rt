//! The first row of a unit of uses of length `(*)` that are refused (F39), and of items that are too large (F53). Sections 5.7, 6.2, 6.3, 8.4.2, 10.4,
//! 15.9.3 and 15.10 of the standard, ANSI X3.9-1978.
#![tactic(auto)]

mod definitions;
mod expressions;
mod items;
mod judge;
mod lengths;
mod names;
mod places;
mod statements;

pub use judge::length_fault;
