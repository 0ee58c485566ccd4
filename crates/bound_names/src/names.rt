//! What is known of the names, as laws.

ghost use Rattle.bound_names.specs.BoundNames.{LowersAreTold, SizesAreTold, LowersAreNoSizes, BoundsAreNoTemporaries, BoundsAreNoLists, BoundsAreNoConstants, BoundsEndInDigits};

/// Two lower bounds with one name are one, and so are two sizes; no lower bound has the name of a size, and none of them that of a temporary, of a control
/// list or of a constant, nor a name that does not end in a digit.
pub fn bound_names_are_told()
    ensures lowers { LowersAreTold }
    ensures sizes { SizesAreTold }
    ensures apart { LowersAreNoSizes }
    ensures temporaries { BoundsAreNoTemporaries }
    ensures lists { BoundsAreNoLists }
    ensures constants { BoundsAreNoConstants }
    ensures digits { BoundsEndInDigits }
{}
