//! The C expressions for numbers and for their places, as the contract of a call that does nothing.

ghost use Rattle.c_emit_laws.specs.EmittedNumbers.{NumbersAreEmitted, PlacesAreEmitted};
ghost use Rattle.c_emit_laws.specs.EmittedTypes.{TypesAreRight, LibraryTypesAreRight};

/// Where a lowered value that is a number or a truth value has a value, its C expression has it, without a fault; and where a variable or an
/// element has a place, its C expression names it.
pub fn numbers_are_emitted()
    ensures values { NumbersAreEmitted }
    ensures places { PlacesAreEmitted }
{}

/// The type that a lowered value is given, an integer or a logical, is the type of what it means, where places have the types of their names and
/// temporaries those that are said; and so is that of what a function of the library gives.
pub fn types_are_told()
    ensures values { TypesAreRight }
    ensures library { LibraryTypesAreRight }
{}
