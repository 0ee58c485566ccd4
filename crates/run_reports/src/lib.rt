//! What is said of a run of C files that has ended, and its exit status (CSTR 149, appendix on the run time library; ANSI X3.9-1978, 11.12 and
//! 12.7). Texts are read among the objects as the run left them, so that no report takes memory.
#![tactic(auto)]

mod endings;
mod names;
mod reports;

pub use names::function_name;
pub use reports::say_run;
