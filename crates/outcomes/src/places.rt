//! The names of places, and the outcome where a place is not there.

ghost use Rattle.std.specs.Prelude.{◌≡◌, IfOk};
ghost use Rattle.outcomes.specs.Lines.{name_of_place, shown};
ghost use Rattle.outcomes.specs.Outcomes.{IsNotThereOrNoMemory};

use crate::message::place_shown;
use crate::outcome::Outcome;
use f_tree::Text;
use f2c_outside::shelves::Place;
use plain_data::Items;
use std::alloc::{AllocError, Global};

/// The name of a place that has one.
pub fn name_of_place(alloc: Global, place: &Place) -> Result<Option<Text>, AllocError>
    ensures { IfOk result (λ name. name ≡ name_of_place place.now) }
{
    match place {
        Place::File(name) => Ok(Some(Items::from_slice(alloc, name.as_bytes())?)),
        Place::Input | Place::Output | Place::Fault => Ok(None),
    }
}

/// That there is no file of this name, or want of memory for the name.
pub fn name_not_there(alloc: Global, name: &[u8]) -> Outcome
    ensures { IsNotThereOrNoMemory name.now result }
{
    match Items::from_slice(alloc, name) {
        Ok(name) => Outcome::NotThere(name),
        Err(_) => Outcome::NoMemory,
    }
}

/// That a place is not there, or want of memory for its name.
pub fn place_not_there(alloc: Global, place: &Place) -> Outcome
    ensures { IsNotThereOrNoMemory (shown place.now) result }
{
    name_not_there(alloc, place_shown(place))
}
