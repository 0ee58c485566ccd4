//! The strings of statements that are built from items, as the contract of a call that does nothing.

ghost use Rattle.built_strings.specs.BuiltStrings.{EachStructureHasItsStrings};

/// The strings of the statements that are built for items have, with their zero bytes, at most the bytes of those of the items: each expression of an item stands
/// once in its statement, and the variable of a loop has none (C89, 3.1.4 and 3.6).
pub fn structured_statements_have_their_strings()
    ensures { EachStructureHasItsStrings }
{}
