//! Whole texts of the places of a shelf: read to their end, and written; lines of messages.
#![tactic(auto)]

mod loops;

pub use loops::{ReadFail, read_place, say, say_two, write_pieces, write_place};
