//! Whether the body of a function mentions one of some names (C89, 3.6).
#![tactic(auto)]

mod statements;

pub use statements::mentions_one;
