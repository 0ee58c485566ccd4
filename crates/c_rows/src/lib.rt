//! Worked programs, texts and calls of the C definitions, computed.
#![tactic(auto)]

pub mod c_programs;
pub mod fault_rows;
pub mod format_rows;
pub mod library_rows;
pub mod link_rows;
pub mod rows;
pub mod rulings;
pub mod unit_rows;
