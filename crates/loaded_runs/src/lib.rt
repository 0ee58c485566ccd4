//! Runs of loaded programs over the external units that a command hands in, up to their ends: the devices of the units are finished then
//! (CSTR 149, appendix on the run time library; ANSI X3.9-1978, 12.10.2.1).
#![tactic(auto)]

mod ends;
mod finishing;
mod runs;

pub use ends::RunEnd;
pub use runs::{ProgramRun, run_loaded};
