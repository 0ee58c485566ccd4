//! A file cut into its pieces, one for each program unit, and the name that each asks for. Sections 11.14 and 14 to 16 of the standard,
//! ANSI X3.9-1978. Linear in the bytes of the file.
#![tactic(auto)]

mod cutting;
mod extents;
mod pieces;
mod texts;
mod wanted;

pub use cutting::cut;
pub use pieces::Pieces;
pub use split_pieces::{Wanted, WantedName};
