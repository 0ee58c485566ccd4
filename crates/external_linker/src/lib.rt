//! The external objects of the files of a program: one for each name, of the greatest size that a file gives it (C89, 3.1.2.2 and 3.7.2).
#![tactic(auto)]

mod known;
mod objects;
mod starts;

pub use known::{Externals, known_externals};
pub use objects::{external_object, put_external_objects};
pub use starts::{ExternalObject, StartBytes};
