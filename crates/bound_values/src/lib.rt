//! The bounds of dummy arrays as pure values, which a procedure keeps when it begins, and which dummy arrays have such bounds. Sections 5.1.1, 5.1.2,
//! 5.5.1 and 6.1 of the standard, ANSI X3.9-1978.
#![tactic(auto)]

mod dimensions;
mod leaves;
mod values;

pub use dimensions::{has_adjustable_bounds, is_adjustable, lower_value, size_value};
pub use values::{bound_value, is_pure_bound};
