//! C files read from their places on a shelf, each to its end, and the trees that they spell (C89, 3.7).
#![tactic(auto)]

mod failing;
mod reading;

pub use failing::CSourceFail;
pub use reading::read_c_files;
