//! The files of a program, linked: the names of each file are given what they stand for, its functions become code over numbers, and the functions and the objects of
//! all files stand one behind the other (C89, 3.1.2.2, 3.5 and 3.7).
#![tactic(auto)]

mod files;
mod functions;
mod names;
mod program;

pub use program::link_files;
