//! The common blocks of a unit with their members and the sizes of these, and the equations between names that they make, as the statements so far
//! say; and names by numbers. Sections 5.1, 8.3 and 17.1 of the standard, ANSI X3.9-1978.
#![tactic(auto)]

mod blocks;
mod equations;
mod numbers;
mod sizes;

pub use blocks::{Block, Member, common_blocks};
pub use equations::{NamedEquation, equations_among, first_names};
pub use numbers::Numbers;
pub use sizes::stored_size;
