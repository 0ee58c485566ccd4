//! The files of a source: places of a shelf are read, and the files that they include.
//! ANSI X3.9-1978, sections 3 to 15; MIL-STD-1753: INCLUDE.
#![tactic(auto)]

mod failing;
mod included;
mod names;
mod places;
mod reading;
mod sources;

pub use failing::SourceFail;
pub use names::name_of_file;
pub use places::{MOST_BYTES, read_places};
pub use reading::read_source_from;
pub use sources::{SourceRead, read_source};
