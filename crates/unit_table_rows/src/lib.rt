//! Programs over the unit table with devices in memory, whose ends follow from the clauses of its calls alone.
#![tactic(auto)]

pub mod failures;
pub mod placing;
pub mod programs;
pub mod records;
