//! The names of all pieces of a file, chosen before anything is written: no file that is there has one of them, and no two are one. The
//! definition stands in `split_pieces`; here the shelf is asked once for each name that comes in question.
#![tactic(auto)]

mod choosing;

pub use choosing::{NamesFail, choose_names};
