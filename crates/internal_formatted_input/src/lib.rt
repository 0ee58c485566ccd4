//! Formatted input on an internal file as calls of the library, over the objects of a run (ANSI X3.9-1978, 12.2.5, 12.8, 12.9.5.1 and 13;
//! CSTR 149, appendix on the run time library): `s_rsfi` begins a transfer and reads its first record, `do_fio` gives items their values, and
//! `e_rsfi` ends it.
//!
//! A record is copied when the format comes to it, since an item before it may be stored into the file itself. No call takes memory: the record
//! that is being read stands in the transfer, and the format is copied into a buffer of the caller when the transfer begins. A record of more
//! than 1,024 bytes cannot be read, and is error 5.
#![tactic(auto)]

mod acts;
mod calls;
mod endings;
mod items;

pub use calls::{InternalFormattedInput, Start, do_fio, e_rsfi, s_rsfi};
