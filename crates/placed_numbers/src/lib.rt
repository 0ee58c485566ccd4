//! What equations between numbers make of the blocks that begin with some of them: whether the equations contradict each other, else whether a
//! block is joined to another one or extended before its start, else where each number stands. Sections 8.2.3, 8.3 and 17.1 of the standard,
//! ANSI X3.9-1978.
#![tactic(auto)]

mod clear;
mod judging;
mod owners;
mod reaching;

pub use judging::{Standing, judge_numbers};
