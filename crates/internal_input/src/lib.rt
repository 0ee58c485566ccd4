//! List-directed input on an internal file as calls of the library, over the objects of a run (ANSI X3.9-1978, 12.2.5, 12.8 and 13.6.1;
//! CSTR 149, appendix on the run time library): `s_rsli` begins a transfer and reads its first record, `do_lio` gives items their values,
//! and `e_rsli` ends it.
//!
//! A record is read from the objects of the run when the transfer comes to it. An item may stand in the file itself: its value is stored
//! once all its records are read, and the characters of a text are put together in a buffer until then. A record of more than 1,024 bytes
//! cannot be read, and is error 5. No call takes memory.
#![tactic(auto)]

mod calls;
mod ends;
mod items;
mod records;
mod texts;

pub use calls::{InternalInput, Start, do_lio, e_rsli, s_rsli};
