//! Laws of the bounds of dummy arrays that a procedure keeps when it begins: as pure values they are the bounds that the call fixes. The functions here
//! do nothing; their contracts are the laws. ANSI X3.9-1978, sections 5.1.1, 5.1.2 and 5.5.1.
#![tactic(auto)]

ghost use Rattle.kept_bounds.specs.FixedBounds.{DimensionsAreFixed, NamesAreFixed};
ghost use Rattle.kept_bounds.specs.KeptBounds.{LowersAreMeant, SizesAreMeant};

/// The lower bound of a dimension that a call fixes is the value of its expression, where this takes no power and no function.
pub fn lowers_are_meant()
    ensures { LowersAreMeant }
{}

/// The size of a dimension that a call fixes is the value that is made of its bounds, and it has 32 bits.
pub fn sizes_are_meant()
    ensures { SizesAreMeant }
{}

/// Where a call fixes the dimensions of an array, each has its bounds, in their order.
pub fn dimensions_are_fixed()
    ensures { DimensionsAreFixed }
{}

/// Of a name the bounds are found that the call fixes, or that it is none of the dummies.
pub fn names_are_fixed()
    ensures { NamesAreFixed }
{}
