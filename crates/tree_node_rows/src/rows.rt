//! The nodes of a unit with a statement function, as the contract of a call that does nothing.

ghost use Rattle.tree_node_rows.specs.Examples.{ExampleIsCounted};

/// A unit with a statement function of five nodes, which it refers to three times, has 42 nodes: a reference has one of its own, those of its argument and those
/// of the function's expression, and the heading of the definition is no reference (15.4).
pub fn example_is_counted()
    ensures { ExampleIsCounted }
{}
