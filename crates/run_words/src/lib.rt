//! What the words of a run of C files ask for: `-run`, and behind it, in any order, C files, one at least, files that the program may open, and at most
//! one limit of steps.
#![tactic(auto)]

mod counts;
mod kinds;
mod request;

pub use kinds::{Expected, is_c_word, is_run};
pub use request::{RunRequest, RunWordsFail, drawer_names, run_of_words};
