//! Cards: from the bytes of a file to its statements, or to the first refusal of its cards. Section 3
//! of the standard, ANSI X3.9-1978. One pass over the bytes, linear in their number.
#![tactic(auto)]

mod columns;
mod faults;
mod grouping;
mod kinds;
mod lines;
mod pass;
mod reader;

pub use fortran_text::{CardKind, Statement};
pub use kinds::{card_kind, is_end, says_end};
pub use lines::line_length;
pub use reader::{Cards, read_cards, read_included, read_unjudged};
