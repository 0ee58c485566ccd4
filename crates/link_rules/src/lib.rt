//! The four rules that the files of a program must keep so that they are linked: a main program, functions and images that are defined once, functions that are
//! defined, and not too many bytes (C89, 3.1.2.2, 3.5.4 and 3.7.2).
#![tactic(auto)]

mod bytes;
mod definitions;
mod mains;
mod missing;
mod names;
mod rules;

pub use bytes::has_too_many_bytes;
pub use rules::{LinkRule, broken_before_bytes};
