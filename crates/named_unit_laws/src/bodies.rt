//! Functions from items by names, as the contract of a call that does nothing.

ghost use Rattle.named_unit_laws.specs.NamedBodies.{EachNamedUnitIsAUnit};

/// For plain units that call each other, the functions that are made from items by names, of the bounds that each keeps of its dummy arrays and of its steps, are
/// the functions that `unit_translation` makes from their flat items, in the same files. ANSI X3.9-1978, section 5.5.1.
pub fn named_units_are_units()
    ensures { EachNamedUnitIsAUnit }
{}
