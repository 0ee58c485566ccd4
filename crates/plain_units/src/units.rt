//! Which written units are plain, as the contracts of calls that do nothing.

ghost use Rattle.plain_units.specs.Examples.{ExamplesAreTold};
ghost use Rattle.plain_units.specs.PlainParts.{PlainUnitsAreTold};

/// A written main program, subroutine or function for which `is_plain_unit` is true is plain: its statements are lowered, its loops are nested, its names are
/// numbers and procedures, and its dummies and its result are what their classes say.
pub fn plain_units_are_told()
    ensures { PlainUnitsAreTold }
{}

/// A function of an array, a function and a variable is plain, also where the array is as long as its actual argument or as the variable says, and a subroutine
/// of a variable. The function is not plain where a dummy is a text, a constant, its own name or one that stands twice, where its result is an array, or where
/// it has an ENTRY; nor where an upper bound is `*` that is not the last, or takes a power, nor where one of an array that is no dummy is `*` or a variable.
/// What is kept of an array whose bounds a call fixes is its lower bounds and the sizes of its dimensions.
pub fn examples_are_told()
    ensures { ExamplesAreTold }
{}
