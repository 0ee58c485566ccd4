//! The first of refusals: by file, then card, then number. Each call keeps the earlier of two, so that whoever judges statements one after
//! the other has the first of all.
#![tactic(auto)]

mod earliest;

pub use earliest::{earlier_of, is_before, lesser_of, refused_at};
