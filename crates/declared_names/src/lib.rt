//! What the names stand for that declarations of a C text declare: each declaration hides what is around it (C89, 3.1.2.1 and 3.5).
#![tactic(auto)]

mod files;
mod locals;
mod things;

pub use files::{give_constant, give_external, give_function};
pub use locals::{give_automatic, give_extern, give_parameter, give_static};
