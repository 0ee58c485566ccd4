//! List-directed input on a unit as calls of the library, over the objects of a run and its external units (ANSI X3.9-1978, 12.8 and
//! 13.6.1; CSTR 149, appendix on the run time library): `s_rsle` begins a transfer and reads its first record, `do_lio` gives items
//! their values, and `e_rsle` ends it.
//!
//! No call takes memory: the record that is being read stands in the transfer. A record of more than 1,024 bytes cannot be read, and is
//! error 5. An item may need any number of records, so that its steps are counted: a call ends where 64 bits do not tell how many there are.
//!
//! Each function that changes a unit table has a `requires` that always holds: a function with one is proved whatever devices there are,
//! and one without where those that its callees may make are among them.
#![tactic(auto)]

mod calls;
mod ends;
mod items;
mod kinds;
mod reading;
mod records;
mod texts;

pub use calls::{ListedInput, Start, do_lio, e_rsle, s_rsle};
pub use ends::InputEnd;
pub use kinds::{Item, kind_read};
pub use reading::{LONGEST, RecordInReading};
pub use records::{NextRecord, fetch};
