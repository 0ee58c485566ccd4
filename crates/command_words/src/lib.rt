//! What the words of a command line ask for: a translation under options, splitting, a check of calls, or the usage, or the first word with which none
//! of these goes on. CSTR 149, appendix B.
#![tactic(auto)]

mod checks;
mod command;
mod sources;

pub use command::{Command, Origin, Translation, command_of_words};
