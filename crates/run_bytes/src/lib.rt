//! The objects of a run of a C text, one behind the other: the bytes of all in one vector, each with a mark that tells whether it is
//! set, and the values of all in another (C89, 3.1.2.5 and 3.3.2). An access takes the time of the bytes that it reads or stores, and
//! no call but `RunBytes::new` takes memory.
#![tactic(auto)]

mod access;
mod cells;
mod held;
mod places;
mod room;
mod run;

pub use access::{AccessType, FieldType, ObjectKind, PointedType, TypedValue};
pub use run::RunBytes;
