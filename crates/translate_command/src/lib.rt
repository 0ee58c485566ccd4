//! The command that translates: the FORTRAN files of a source are read, judged as one set, and their translations written to places of a shelf, and
//! where that is asked for the prototypes of their functions, which are compared with those that were there.
//! ANSI X3.9-1978, sections 2 to 18; MIL-STD-1753: INCLUDE.
#![tactic(auto)]

mod command;
mod comparing;
mod failing;
mod job;
mod texts;
mod writing;

pub use command::translate;
pub use failing::TranslateFail;
pub use job::Job;
