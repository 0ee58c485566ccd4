//! The command that runs C files: they are read, linked and run over the external units that are handed in (C89, 3.7; CSTR 149, appendix on the
//! run time library).
#![tactic(auto)]

mod command;
mod failing;

pub use command::{RunDone, run_c_files};
