//! That the items of steps by names are those of their flat items.

ghost use Rattle.item_emission.specs.Agreeing.{EmissionsAgree};

/// The item of a step by names is that of the flat item which a main program has for it, where what it names is listed. C89, 3.1.2 and 3.6.
pub fn emissions_agree()
    ensures { EmissionsAgree }
{}
