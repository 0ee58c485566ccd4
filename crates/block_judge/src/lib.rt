//! Branches into the arms of IF blocks and into DO ranges (F28), and ENTRY statements that stand where none may (F41). Sections 11.6 to 11.8,
//! 11.10.8 and 15.7 of the standard, ANSI X3.9-1978.
#![tactic(auto)]

mod arms;
mod blocks;
mod branches;
mod entries;
pub mod faults;
mod places;
mod ranges;
pub mod sharing;

pub use faults::{add_block_rows, block_fault};
pub use sharing::entry_sharing;
