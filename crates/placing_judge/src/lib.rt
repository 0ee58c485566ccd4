//! The refusals of a unit's COMMON and EQUIVALENCE statements: of places and equations that contradict each other (F35), and of blocks that are
//! joined or extended before their start (F36), each at its statement. Sections 8.2, 8.3 and 17.1 of the standard, ANSI X3.9-1978.
#![tactic(auto)]

mod faults;
mod fronts;
mod judge;
mod numbering;
mod rows;
mod ties;

pub use judge::placing_fault;
pub use ties::StatementTies;
