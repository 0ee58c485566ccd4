//! How many flat steps statements have that are built from items, as the contract of a call that does nothing.

ghost use Rattle.built_sizes.specs.SizedStructures.{EachStructureHasASize};

/// The statements that are built for items have as many flat steps as there are items: a test, a `switch`, a loop and each of their parts have a step for each
/// item that belongs to them, and a label, a block and an `else` have no more (C89, 3.6).
pub fn structured_statements_have_a_size()
    ensures { EachStructureHasASize }
{}
