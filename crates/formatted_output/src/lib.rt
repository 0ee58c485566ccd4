//! Formatted output on a unit as calls of the library, over the objects of a run and its external units (ANSI X3.9-1978, 12.8, 12.9.5.2 and
//! 13; CSTR 149, appendix on the run time library): `s_wsfe` begins a transfer, `do_fio` puts items, and `e_wsfe` ends it.
//!
//! No call takes memory: the record in the making stands in the transfer, and the format is copied into a buffer of the caller when the
//! transfer begins, since the program may change its text later.
//!
//! Each function that changes a unit table has a `requires`: a function with one is proved whatever devices there are, and one without where
//! those that its callees may make are among them.
#![tactic(auto)]

mod acts;
mod calls;
mod endings;
mod formats;
mod items;

pub use acts::{Turn, edit_record, turn_of};
pub use calls::{FormattedOutput, Passage, Start, do_fio, e_wsfe, s_wsfe};
pub use formats::read_format;
pub use items::{ItemList, behind, item_list, value_under};
