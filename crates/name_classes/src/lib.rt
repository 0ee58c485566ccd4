//! What the statements of a program unit make of its names, and so the class of each, looked up in sets of names. Sections 8.4 to 8.8, 10, 15 and
//! 18 of the standard, ANSI X3.9-1978.
#![tactic(auto)]

pub mod classes;
pub mod declarations;
pub mod entries;
pub mod signs;
pub mod statements;
pub mod used;

pub use classes::class_of;
pub use signs::{Signs, unit_signs};
