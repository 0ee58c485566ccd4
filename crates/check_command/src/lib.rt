//! The command that checks calls: the FORTRAN files of a source and prototype files are read, the source is judged, and each call of it that disagrees
//! with what it calls is listed on Output. ANSI X3.9-1978, sections 15.5 to 15.9; CSTR 149.
#![tactic(auto)]

mod checked;
mod command;
mod failing;
mod listing;
mod prototype_reading;

pub use checked::Checked;
pub use command::check;
pub use failing::CheckFail;
