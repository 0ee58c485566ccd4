//! The items of a formatted input, on a unit or on an internal file: each takes its field of the record that is being read, and its value is
//! stored where it stands (ANSI X3.9-1978, 12.8.2 and 13.5). No call takes memory; a text of any length is stored in pieces.
#![tactic(auto)]

mod values;

pub use values::{ItemHalt, take_item};
