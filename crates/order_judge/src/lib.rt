//! The rows of the table of refusals that look at the order and the structure of the statements of a unit: labels, blocks and loops. Sections
//! 3.4, 3.5 and 11 of the standard, ANSI X3.9-1978.
#![tactic(auto)]

pub mod ends;
pub mod faults;
pub mod labels;
pub mod marks;
pub mod nest;

pub use ends::add_end_row;
pub use faults::structure_fault;
pub use labels::add_label_rows;
pub use nest::add_nest_rows;
