//! Pieces written to files of their own, in their order. What stands after a write that fails is told: the files before it are whole, the one
//! that failed is unchanged or has a front of its piece, and no other file is changed.
#![tactic(auto)]

mod writing;

pub use writing::write_pieces;
