//! The names of the files that pieces are written to: no file that is there, and no earlier piece, has one of them. The definition stands in
//! `split_pieces`; here a shelf is asked which names are there.
#![tactic(auto)]

mod choosing;
mod numbers;

pub use choosing::{ChoiceFail, choose_name};
