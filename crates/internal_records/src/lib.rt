//! The records of an internal file, as an input comes to them, over the objects of a run (ANSI X3.9-1978, 12.2.5 and 12.9.5.1). Each is
//! looked at when the input comes to it, where it stands: no call takes memory.
#![tactic(auto)]

mod records;

pub use records::{RecordEnd, next_record};
