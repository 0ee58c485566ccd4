//! Runs of small sets that come to a call which disagrees with the procedure that it calls. Sections 15.5.2.2, 15.6.2.2 and 15.9.3 of the standard,
//! ANSI X3.9-1978.
#![tactic(auto)]

pub mod rows;
