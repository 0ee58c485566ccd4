//! The C file that a text spells (C89, 3.7), or the line at which the text is refused. A text is read in one pass.
#![tactic(auto)]

mod files;
mod functions;
mod parts;
mod texts;

pub use texts::{ReadFail, read_c};
