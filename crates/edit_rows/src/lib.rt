//! Rows of formatted and list-directed text, computed from the definitions of `edit_meaning`.
#![tactic(auto)]

pub mod compared_rows;
pub mod computed_rows;
