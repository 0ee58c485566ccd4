//! The record in the making of a formatted output, as a machine without memory and without input or output (ANSI X3.9-1978, section 13.5).
//! Each edit of a format is a call, and so is each value in its field. A record that is complete is read out of the sheet before the next
//! one begins.
#![tactic(auto)]

mod columns;
mod fields;
mod halt;
mod sheet;

pub use fields::Field;
pub use halt::Halt;
pub use sheet::RecordSheet;
