//! From pieces to expressions, places, names, labels and constants. Sections 2, 3.4, 4 to 6 of the standard, ANSI X3.9-1978.
#![tactic(auto)]

mod expressions;
mod failure;
mod forms;
mod marks;
mod texts;

pub use expressions::{parse_expression, parse_place, read_expression, read_place};
pub use failure::Failure;
pub use forms::{Wanted, label, name, quoted, required, taken};
pub use texts::{characters, constant_text, name_text, only_one};
