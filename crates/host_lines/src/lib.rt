//! The lines of a stream: they are read from any reader, counted, and put into any writer. Each ends with a line feed,
//! which the last may lack. Where a reader or a writer tells its bytes, the clauses say which of them were read or put.
#![tactic(auto)]

mod ends;
mod reading;
mod writing;

pub use reading::{Found, line_at, line_before, lines_from, read_line};
pub use writing::{put_line, record_at};
