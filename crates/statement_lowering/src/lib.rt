//! Statements lowered: from its tree and a table of the names, the steps of a statement behind those before it. Sections 10 to 12 and 15 of the
//! standard, ANSI X3.9-1978.
//!
//! Not lowered are assignments of texts, implied DO lists, and statements with an expression that is not lowered.
#![tactic(auto)]

mod appending;
mod around;
mod assignments;
mod auxiliaries;
mod branches;
mod calls;
mod conditions;
mod controls;
mod copies;
mod label_lists;
mod loops;
mod passed_labels;
mod statement;
mod transfers;
mod turns;

pub use around::Around;
pub use passed_labels::add_labels_passed;
pub use statement::lower_statement;
pub use turns::{free_inside, lower_turn};
