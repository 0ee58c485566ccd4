//! The tokens of a C text with their lines (C89, 2.1.1.2 and 3.1). Linear in the text: one pass, and each byte is looked
//! at a bounded number of times.
#![tactic(auto)]

mod classes;
mod head;
mod number;
mod reader;
mod sign;
mod spans;
mod strings;
mod token;

pub use classes::{is_letter, is_word_byte};
pub use reader::tokens;
pub use spans::last_line;
pub use token::{CSign, CToken, PlacedCToken};
