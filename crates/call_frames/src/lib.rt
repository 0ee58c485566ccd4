//! How a function of a C text begins at a call, and how it goes on with the answer to its own call, over the objects of a run (C89,
//! 3.3.2.2, 3.6.6.4 and 3.7.1). Nothing takes memory: the frame of a function is made anew where it stands.
#![tactic(auto)]

mod answers;
mod frames;
mod parameters;

pub use answers::{resume, taken};
pub use frames::start;
