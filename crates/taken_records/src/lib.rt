//! The record that is being read by a formatted input, as a machine without memory and without input or output (ANSI X3.9-1978, section 13.5).
//! Each edit of a format that takes no item is a call, and so is the field of each item. The caller gives the records, one at a time, and
//! stores the values.
#![tactic(auto)]

mod fields;
mod halt;
mod record;

pub use fields::{Taken, Want};
pub use halt::Halt;
pub use record::RecordInput;
