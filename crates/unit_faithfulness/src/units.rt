//! Files of units of numbers that call each other, as the contract of a call that does nothing.

ghost use Rattle.unit_faithfulness.specs.UnitsFaithful.{EachUnitsSetIsFaithful};

/// Texts that spell the C files that are made for files of main programs, subroutines and functions of numbers are faithful to them: the functions of each
/// with their parameters are those of its units, the files link where the set is closed, and over each setting each of their runs is that of the units.
pub fn units_sets_are_faithful()
    ensures { EachUnitsSetIsFaithful }
{}
