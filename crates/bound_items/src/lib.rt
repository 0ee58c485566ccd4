//! The law of the C items by which a function keeps the bounds of its dummy arrays before its first statement. The function here does nothing; its
//! contract is the law. ANSI X3.9-1978, section 5.5.1.
#![tactic(auto)]

ghost use Rattle.bound_items.specs.BoundItems.{BoundsAreKept};

/// The items are done one after the other, each object then holds its number, and the store stands as before.
pub fn bounds_are_kept()
    ensures { BoundsAreKept }
{}
