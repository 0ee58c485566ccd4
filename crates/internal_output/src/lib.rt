//! List-directed output on an internal file as calls of the library, over the objects of a run (ANSI X3.9-1978, 12.2.5, 12.8 and 13.6.2;
//! CSTR 149, appendix on the run time library): `s_wsli` begins a transfer, `do_lio` puts items, and `e_wsli` ends it.
//!
//! Records are stored in the objects of the run, each with blanks behind it up to the length of a record of the file. Items may stand in
//! the file itself: all items of a call are fetched, into a buffer, before a record is stored. No call takes memory.
#![tactic(auto)]

mod calls;
mod files;
mod items;
mod puts;

pub use calls::{InternalOutput, do_lio, e_wsli, s_wsli};
pub use files::{FileRecords, RecordRefusal, next_offset, refused, write_record};
pub use items::put_behind;
