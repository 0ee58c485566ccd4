//! The functions of the library over a table of external units (CSTR 149, appendix on the run time library): texts and numbers, STOP and
//! the report of a place outside its bounds, OPEN, CLOSE, BACKSPACE, REWIND and ENDFILE, and input and output, list-directed and formatted,
//! on a unit and on an internal file.
//!
//! A call takes no memory.
//!
//! Each function that changes a unit table has a `requires` that always holds: a function with one is proved whatever devices there are,
//! and one without where those that its callees may make are among them.
#![tactic(auto)]

mod arguments;
mod calls;
mod copies;
mod endings;
mod file_reading;
mod formatted;
mod formatted_file;
mod formatted_file_reading;
mod formatted_in_progress;
mod formatted_reading;
mod functions;
mod input;
mod internal;
mod library;
mod listed;
mod numbers;
mod replies;
mod statements;
mod stops;
mod texts;
mod transfers;

pub use endings::RunEnding;
pub use library::UnitLibrary;
