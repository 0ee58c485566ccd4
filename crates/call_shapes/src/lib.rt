//! The shapes of procedures and of calls, and which calls of a set disagree with the procedures that they call. Sections 15.5 to 15.9 of the
//! standard, ANSI X3.9-1978. The definitions stand in `specs/`; here are the types that they and the code share.
#![tactic(auto)]

pub mod findings;
pub mod shapes;

pub use findings::{Finding, Reason};
pub use shapes::{Argument, NamedShape, Shape, ShapeResult};
