//! Statements that are built from items, as the contract of a call that does nothing.

ghost use Rattle.c_loops.specs.KeptLayouts.{EachStructureIsKept};

/// The statements that are built for items have one loop for each item at which a loop is said to begin, where that item sets a place: a `for` where the next
/// item tests, or a `do` where the item behind the turn does and goes back to it; and each label that their `goto`s and `case`s name is the label of an item
/// (C89, 3.6.4.2, 3.6.5 and 3.6.6.1).
pub fn structured_statements_keep_loops()
    ensures { EachStructureIsKept }
{}
