//! The edit rules of FORTRAN 77: formats, edit descriptors in their fields and list-directed text, both ways.
//! None of its calls takes memory.
#![tactic(auto)]

mod columns;
pub mod edit;
pub mod edits;
pub mod format_check;
pub mod format_parts;
mod format_places;
pub mod format_scan;
mod format_signs;
pub mod format_walk;
pub mod laws;
pub mod list_reader;
mod list_scan;
pub mod list_writer;
pub mod read_back;
pub mod take;
pub mod walk_answers;

pub use edit::{edit_int, edit_logical, edit_text};
pub use edits::Edit;
pub use format_check::{BadFormat, check_format, format_laws};
pub use format_walk::FormatWalk;
pub use list_reader::{ItemKind, ListItem, ListReader};
pub use list_writer::{ListPut, ListValue, ListWriter};
pub use take::{TakeError, take_int, take_logical, take_text};
