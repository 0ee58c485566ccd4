//! Lowered values and steps as data: what a translator holds of a program unit between its trees and its C text. What they mean is said of the
//! values and steps of `l_core`, which `specs/` reads off them. Sections 5.4, 6, 10, 11, 12 and 15 of the standard, ANSI X3.9-1978.
#![tactic(auto)]

pub mod pures;
pub mod steps;

pub use pures::{Function, Literal, Operator, Prefix, Pure, Text, Wanted};
pub use steps::{Acting, AuxiliaryKind, Callee, Controls, Direction, Layout, Step, Word};
