//! Proofs alone: the steps of a lowered program unit are bounded by the nodes of its statements as they are read. Sections 6 and 10 to 15 of the standard,
//! ANSI X3.9-1978.
#![tactic(auto)]

pub mod bounded;
