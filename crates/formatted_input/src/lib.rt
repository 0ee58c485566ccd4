//! Formatted input on a unit as calls of the library, over the objects of a run and its external units (ANSI X3.9-1978, 12.8, 12.9.5.1 and
//! 13; CSTR 149, appendix on the run time library): `s_rsfe` begins a transfer and reads its first record, `do_fio` gives items their
//! values, and `e_rsfe` ends it.
//!
//! No call takes memory: the record that is being read stands in the transfer, further ones are read when the format comes to them, and
//! the format is copied into a buffer of the caller when the transfer begins, since the program may change its text later. A record of more
//! than 1,024 bytes cannot be read, and is error 5.
//!
//! Each function that changes a unit table has a `requires`: a function with one is proved whatever devices there are, and one without where
//! those that its callees may make are among them.
#![tactic(auto)]

mod acts;
mod calls;
mod endings;
mod items;

pub use calls::{FormattedInput, Start, do_fio, e_rsfe, s_rsfe};
