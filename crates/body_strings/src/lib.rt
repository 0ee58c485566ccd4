//! The strings in the body of a function, in the order in which they stand (C89, 3.1.4 and 3.6).
#![tactic(auto)]

mod statements;

pub use statements::put_body_strings;
