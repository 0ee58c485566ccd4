//! Proofs alone: the text of a lowered program unit marks a loop for each of its DO statements. Section 11.10 of the standard, ANSI X3.9-1978.
#![tactic(auto)]

pub mod marked;
