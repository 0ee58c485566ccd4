//! Statements and their items, as the contract of a call that does nothing.

ghost use Rattle.std.specs.Prelude.{◌≡◌, Some};
ghost use Rattle.c_structure.specs.Statements.{statements_for};
ghost use Rattle.c_structure_laws.specs.Example.{its_outline, its_items, its_statements, outline_of_do, items_of_do, statements_of_do, outline_of_switch, items_of_switch, statements_of_switch};
ghost use Rattle.c_structure_laws.specs.Fitting.{ExpressionsAreTheirs, StatementsAreTheirs};

/// The expression that is built for a linked one is linked to it, and the statements that are built for items have just these items, each at its
/// position, with the labels where they are said to stand: whatever is built by a branch, an arm or a label is read back.
pub fn trees_have_their_items()
    ensures expressions { ExpressionsAreTheirs }
    ensures statements { StatementsAreTheirs }
{}

/// A loop whose turn has a label is built from its items as a `for`.
pub fn loop_is_built()
    ensures { statements_for its_outline 7 0 its_items ≡ Some its_statements }
{}

/// A loop that is tested behind its turn is built from its items as an assignment and a `do`; its labels stand before both and in the turn.
pub fn loop_once_is_built()
    ensures { statements_for outline_of_do 5 0 items_of_do ≡ Some statements_of_do }
{}

/// A value with the jumps of its cases behind it is built as a `switch`.
pub fn switch_is_built()
    ensures { statements_for outline_of_switch 6 0 items_of_switch ≡ Some statements_of_switch }
{}
