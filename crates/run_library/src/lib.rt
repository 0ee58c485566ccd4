//! The functions of the library, as a run of C texts calls them (CSTR 149, appendix on the run time library). Devices of the external
//! units can fail.
#![tactic(auto)]

mod library;

pub use library::{CallBreak, Library, LibraryReply, RunBreak};
