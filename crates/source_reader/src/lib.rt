//! From the bytes of files and of those that they include to their trees, or to the first refusal of the cards, the statements and the nests
//! of the source. Sections 2 and 3 of the standard, ANSI X3.9-1978, and MIL-STD-1753: INCLUDE.
#![tactic(auto)]

mod counts;
mod included;
mod mentions;
mod named;
mod source;
mod trees;

pub use named::{NamedFiles, read_files};
pub use source::read_source;
