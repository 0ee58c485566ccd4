//! The translator of a source: from the bytes of files and of those that they include to the C files of their trees, or to the first refusal.
//! ANSI X3.9-1978, sections 3 to 15; MIL-STD-1753: INCLUDE.
#![tactic(auto)]

mod files;
mod source;

pub use source::translate_source;
