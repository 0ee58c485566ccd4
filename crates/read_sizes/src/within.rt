//! How many nodes program units have as they are read, as the contract of a call that does nothing.

ghost use Rattle.read_sizes.specs.ReadUnits.{EachUnitIsReadWithin};

/// A program unit whose statements refer to no statement function has a line for each statement, and its lines have at most four nodes for each node of the
/// statements' trees (3.5, 6, 10 to 12 and 15).
pub fn units_are_read_within()
    ensures { EachUnitIsReadWithin }
{}
