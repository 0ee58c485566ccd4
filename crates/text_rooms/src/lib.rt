//! How long the texts are that a library has to put together in the runs of a program (ANSI X3.9-1978, 6.2.2.2).
#![tactic(auto)]

mod texts;

pub use texts::text_room;
