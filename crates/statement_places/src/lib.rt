//! Where the steps of each statement of a unit stand, and what a statement needs to know of the others for its steps. Sections 3.5, 11.6 to 11.10
//! of the standard, ANSI X3.9-1978.
#![tactic(auto)]

mod arms;
mod labels;
mod layout;
mod loops;
mod places;
mod positions;
mod sizes;
mod sums;
mod turns;
mod ways;

pub use places::{StatementPlace, Turn, statement_places};
