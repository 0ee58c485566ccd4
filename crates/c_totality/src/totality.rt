//! What is proved of terms and calls, of the code of well-formed C files and of their runs, each as the contract of a call
//! that does nothing.
#![tactic(auto)]

ghost use Rattle.c_totality.specs.Totality.{EachCallIsMeant, EachFunctionStands, EachMainBegins, EachStepIsSound, EachTermIsMeant, NoRunIsWithoutMeaning};

/// A term of declared names has a value and names a place, or comes to a fault (C89, 3.3); and so does each function of the
/// library where its arguments are as many and of the kinds that it takes.
pub fn values_are_meant()
    ensures terms { EachTermIsMeant }
    ensures calls { EachCallIsMeant }
{}

/// The code of well-formed files that are linked: each item is of declared names and goes on to items that are there, and
/// the main program begins. A run of such code stands at an item after each step, or is over, or a fault has broken it.
pub fn well_formed_code_stands()
    ensures functions { EachFunctionStands }
    ensures begins { EachMainBegins }
    ensures steps { EachStepIsSound }
{}

/// No run of well-formed files that are linked comes to a form without meaning, whatever the external units, after however
/// many steps.
pub fn no_run_is_without_meaning()
    ensures runs { NoRunIsWithoutMeaning }
{}
