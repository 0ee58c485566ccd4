//! Where each name of a program unit stands first: in any statement, in a statement that declares it, in a PARAMETER statement, and in one that
//! makes it a procedure. Sections 5.1, 8 and 18 of the standard, ANSI X3.9-1978.
#![tactic(auto)]

pub mod names;
mod notes;
pub mod place;
pub mod places;

pub use names::all_names;
pub use place::{Place, add_at, place_of};
pub use places::{
    NamePlaces, conflict_place, declaration_place, mention_place, name_places, parameter_place,
};
