//! The functions of files of several units, and their objects, as the contract of a call that does nothing.

ghost use Rattle.unit_places.specs.UnitPlaces.{FunctionsHavePlaces};

/// Each unit's function has the number of the unit among those of all files, and its variables, control lists, strings and frame are the objects that the
/// definitions say, where the strings of its statements are those that are listed for it; so are the constants of its file, which stand before them.
pub fn functions_have_places()
    ensures { FunctionsHavePlaces }
{}
