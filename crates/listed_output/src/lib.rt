//! List-directed output on a unit as calls of the library, over the objects of a run and its external units (ANSI X3.9-1978, 12.8 and
//! 13.6.2; CSTR 149, appendix on the run time library): `s_wsle` begins a transfer, `do_lio` puts items, and `e_wsle` ends it.
//!
//! No call takes memory: the record in the making stands in the transfer, and the items are fetched twice, once to see that all of them
//! are there before one is put.
//!
//! The items of a call and the record in the making are public for list-directed output on an internal file.
//!
//! Each function that changes a unit table has a `requires` that always holds: a function with one is proved whatever devices there are,
//! and one without where those that its callees may make are among them.
#![tactic(auto)]

mod calls;
mod items;
mod kinds;
mod making;
mod records;

pub use calls::{ListedOutput, Passage, Start, do_lio, e_wsle, s_wsle};
pub use items::{behind, item_at, item_list};
pub use kinds::{ItemList, ItemType};
pub use making::{COLUMNS, RecordInMaking};
