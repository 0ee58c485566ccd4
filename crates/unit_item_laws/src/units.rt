//! The items of units that call each other, by names and linked, as contracts of calls that do nothing.

ghost use Rattle.unit_item_laws.specs.AgreeingUnits.{UnitBoundsAgree, UnitEmissionsAgree};

/// The item of a step by names is that of the flat item which the unit has for it, in whichever file it stands, where each of its names is listed as what it
/// is. C89, 3.1.2, 3.3.2.2 and 3.6.
pub fn unit_emissions_agree()
    ensures { UnitEmissionsAgree }
{}

/// The item by names by which a bound of a dummy array is kept is that of the flat item which the unit has for it. ANSI X3.9-1978, section 5.5.1; C89, 3.1.2
/// and 3.3.16.
pub fn unit_bounds_agree()
    ensures { UnitBoundsAgree }
{}
