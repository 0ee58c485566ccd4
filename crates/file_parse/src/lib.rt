//! From the statements of a file to its tree, or to the first row of refusals of its statements. Sections 2.4 and 3.3 to 3.5 of the standard,
//! ANSI X3.9-1978, and MIL-STD-1753: INCLUDE.
#![tactic(auto)]

mod files;
mod first_refusals;
mod mentions;
mod nests;
mod splices;
mod statements;
mod units;

pub use files::{parse_file, parse_part};
pub use first_refusals::{first_of, is_not_after};
pub use mentions::includes;
pub use nests::first_deep;
pub use splices::{Places, splice, splice_files};
