//! What is proved of the calls of runs, each as the contract of a call that does nothing.
#![tactic(auto)]

ghost use Rattle.agreeing_runs.specs.AgreeingForms.{EachAgreeingRunAgrees};
ghost use Rattle.agreeing_runs.specs.Mismatches.{EachRefusedCallDiffers};

use fortran_totality::totality::{
    well_formed_statements_are_meant, well_typed_expressions_are_meant,
};

/// In well-formed units whose statements agree with the procedures of the set, no run comes to a call, by a name that is no dummy procedure, of a
/// procedure of the set from which it differs in kind, in the type of the result, or in the number, kind or type of its arguments.
pub fn agreeing_runs_agree()
    ensures { EachAgreeingRunAgrees }
{
    well_typed_expressions_are_meant();
    well_formed_statements_are_meant();
}

/// A subroutine or function that refuses a call because it disagrees differs from it in one of these, or in a length: that of a character function, or that
/// of a dummy argument, which is longer than the actual argument.
pub fn refused_calls_differ()
    ensures { EachRefusedCallDiffers }
{}
