//! The names in emitted items, as the contract of a call that does nothing.

ghost use Rattle.emitted_names.specs.KnownNames.{EmittedNamesAreKnown};

/// Each name in the item that is emitted for a step stands for the object or the function for which it is taken, where the names of the function's
/// variables, temporaries, constants and lists do, and those of the library that the step calls; and the only strings in it are those of a STOP.
pub fn emitted_names_are_known()
    ensures { EmittedNamesAreKnown }
{}
