//! Formatted output on an internal file as calls of the library, over the objects of a run (ANSI X3.9-1978, 12.2.5, 12.8, 12.9.5.2 and 13;
//! CSTR 149, appendix on the run time library): `s_wsfi` begins a transfer, `do_fio` puts items, and `e_wsfi` ends it.
//!
//! Records are stored in the objects of the run, each with blanks behind it up to the length of a record of the file. An item may stand in
//! the file itself: it is fetched when its descriptor is come to, behind the records that are complete by then. No call takes memory: the
//! format is copied into a buffer of the caller when the transfer begins, since the program may change its text later.
#![tactic(auto)]

mod acts;
mod calls;
mod endings;
mod items;

pub use calls::{InternalFormatted, Start, do_fio, e_wsfi, s_wsfi};
