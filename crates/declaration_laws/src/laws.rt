//! What breaks no row is well typed and well formed, each as the contract of a call that does nothing.
#![tactic(auto)]

ghost use Rattle.refusal_order.specs.declaration_rows.Fits.{EachFaultlessExpressionIsTyped};
ghost use Rattle.refusal_order.specs.declaration_rows.Formed.{EachFaultlessStatementIsFormed};
ghost use Rattle.refusal_order.specs.declaration_rows.SetRows.{EachFaultlessSetIsWellFormed};
ghost use Rattle.refusal_order.specs.declaration_rows.Verdicts.{EachSetHasAVerdict};

/// An expression that breaks no row is read as what it is judged to be: as a value, as an actual argument, as a place
/// or as pieces of text its reading is well typed.
pub fn faultless_expressions_are_typed()
    ensures { EachFaultlessExpressionIsTyped }
{}

/// A statement that breaks no row is well formed where it stands, wherever what is known of names and labels is so.
pub fn faultless_statements_are_formed()
    ensures { EachFaultlessStatementIsFormed }
{}

/// A set of files that breaks no row is well formed in each of its settings.
pub fn faultless_sets_are_well_formed()
    ensures { EachFaultlessSetIsWellFormed }
{}

/// Each set of files has a first refusal by the rows of its declarations, of the storage of each unit and of what its units
/// share, or no such row holds and it is well formed in each of its settings.
pub fn each_set_has_a_verdict()
    ensures { EachSetHasAVerdict }
{}
