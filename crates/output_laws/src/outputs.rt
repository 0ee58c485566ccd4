//! Each act of a list-directed output, as the contract of a call that does nothing.

ghost use Rattle.output_laws.specs.ListedOutputs.{StartsAreAlike, ItemsAreAlike, EndsAreAlike};

/// A list-directed output on a unit, for which nothing is asked where it fails: its start, each item that is a number or a truth value, and its end
/// come to the same in FORTRAN and by the calls of the C library: they go on with the same units and the same values, or both runs end with the same
/// number.
pub fn outputs_are_alike()
    ensures starts { StartsAreAlike }
    ensures items { ItemsAreAlike }
    ensures ends { EndsAreAlike }
{}
