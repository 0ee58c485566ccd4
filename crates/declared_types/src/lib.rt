//! The types and the dimensions that the statements of a program unit give its names, looked up in tables. Sections 4.1.2, 5.1, 8.1, 8.3 to 8.5
//! and 15.5.1 of the standard, ANSI X3.9-1978.
#![tactic(auto)]

pub mod implied;
pub mod shapes;
pub mod types;

pub use shapes::{Shapes, shape, unit_shapes};
pub use types::{DeclaredType, Types, typed_name, unit_types};
