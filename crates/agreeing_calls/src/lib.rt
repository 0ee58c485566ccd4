//! Runs of sets of files in which no call is found to disagree with the procedure that it calls. Sections 15.5.2, 15.6.2 and 15.9.3 of the standard,
//! ANSI X3.9-1978.
#![tactic(auto)]

pub mod laws;
