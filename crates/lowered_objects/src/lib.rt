//! Proofs alone: a lowered program unit keeps few temporaries, passes few constants and has short texts for the nodes of its statements as they are read.
//! Sections 6 and 10 to 15 of the standard, ANSI X3.9-1978.
#![tactic(auto)]

pub mod few;
