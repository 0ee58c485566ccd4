//! How the commands of the program end: the outcomes, the exit status of each, and the line that it writes on Fault.
#![tactic(auto)]

mod message;
mod outcome;
mod places;

pub use message::{place_shown, say_outcome};
pub use outcome::Outcome;
pub use places::{name_not_there, name_of_place, place_not_there};
