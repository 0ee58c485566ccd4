//! What an expression is, and the least of the rows that it and its parts break, given what the names of its unit are. Sections 5.4, 5.7, 6,
//! 15.4, 15.5 and 15.10 of the standard, ANSI X3.9-1978.
#![tactic(auto)]

mod intrinsics;
mod judging;
mod names;
mod operand;
mod steps;

pub use intrinsics::{Intrinsic, intrinsic_named};
pub use judging::{judge, judge_name};
pub use names::{Fact, Names};
pub use operand::{Found, Operand};
pub use steps::{is_same_basic, one_wanted, with_wanted};
