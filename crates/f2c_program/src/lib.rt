//! The program f2c, but for its `main`: words, the top call, and the real files and streams around it.
#![tactic(auto)]

mod checking;
mod host;
mod program;
mod splitting;
mod top_call;
mod translating;
mod usage;

pub use host::call_on_host;
pub use outcomes::Outcome;
pub use program::{NoWords, command_words, run};
pub use top_call::{Ended, f2c};
pub use usage::usage_names_each_option;
