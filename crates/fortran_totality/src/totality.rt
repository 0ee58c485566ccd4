//! What is proved of well-typed expressions and of well-formed units, and which sets are well formed, each as the contract of a call that does nothing.
#![tactic(auto)]

ghost use Rattle.f_tree.specs.Holding.{EachAnswerIsMeant, EachEndingIsMeant, EachRunIsMeant, EachStartIsMeant, EachStepIsMeant};
ghost use Rattle.f_tree.specs.WellTyped.{EachFunctionIsMeant, EachListIsMeant, EachOperatorIsMeant, EachPrefixIsMeant, EachTermIsMeant, IsMet};

/// Over an active procedure whose variables have places of their types: a well-typed expression comes to a value of
/// its type, to an act that is named, or to a call with whose answer it is well typed again, and never to a form
/// without meaning; each operator, function, element, substring, concatenation and reference among them.
pub fn well_typed_expressions_are_meant()
    ensures terms { EachTermIsMeant }
    ensures lists { EachListIsMeant }
    ensures prefixes { EachPrefixIsMeant }
    ensures operators { EachOperatorIsMeant }
    ensures functions { EachFunctionIsMeant }
    ensures met { IsMet }
{}

/// In a well-formed unit each step of an active procedure, whatever its statement, goes on, ends the run, calls a
/// procedure, answers, or comes to an act that is named, and never to a form without meaning. What an active procedure
/// holds to, it holds to after the step; a procedure that begins, or goes on with the answer to its call, holds to it too.
pub fn well_formed_statements_are_meant()
    ensures steps { EachStepIsMeant }
    ensures starts { EachStartIsMeant }
    ensures answers { EachAnswerIsMeant }
{}

/// No run of a set of well-formed units comes to a form without meaning, after however many steps; and a run that is over
/// has ended at END or STOP, or by the number of an input or output statement.
pub fn well_formed_runs_are_meant()
    ensures runs { EachRunIsMeant }
    ensures endings { EachEndingIsMeant }
{}
