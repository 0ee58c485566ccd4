//! Which written formats are none and which texts and names identify none (F44), and which formats ask for an edit descriptor that is not
//! supported (F45). Sections 12.4, 13.1 and 13.5 of the standard, ANSI X3.9-1978.
#![tactic(auto)]

mod identifiers;
pub mod judge;
mod texts;

pub use judge::format_fault;
