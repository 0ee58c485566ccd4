//! The values of constant expressions. Sections 6.7, 8.6 and 15.10 of the standard, ANSI X3.9-1978.
#![tactic(auto)]

mod bits;
mod constants;
mod functions;
mod integers;
mod intrinsics;
mod operators;
mod texts;
mod values;
mod valuing;

pub use constants::Constants;
pub use functions::{IntrinsicFunction, function_named};
pub use intrinsics::apply;
pub use operators::{binary, complemented, negated};
pub use texts::fitted;
pub use values::{copied, copied_if};
pub use valuing::{bound_value, constant_value};
