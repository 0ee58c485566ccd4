//! The order of the statements of a unit (F25, F40). Sections 3.5, 8.5, 8.6, 15.8 and 16 of the standard, ANSI X3.9-1978.
#![tactic(auto)]

pub mod before;
pub mod forms;
pub mod order;
pub mod ranks;

pub use order::order_fault;
