//! The law of the statements of a source and their cards. Sections 3.2 and 3.3 of the standard, ANSI X3.9-1978; MIL-STD-1753: INCLUDE.

ghost use Rattle.card_statements.specs.CardStatements.{EachCardHasOneStatement};

/// Two statements of a program unit that a source spells, at one card of one file, say the same: a statement has one initial line, and one that
/// stands in the unit once more, by INCLUDE, is the same statement.
pub fn each_card_has_one_statement()
    ensures { EachCardHasOneStatement }
{}
