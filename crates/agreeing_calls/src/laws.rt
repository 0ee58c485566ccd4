//! What is proved of the runs of sets whose calls are checked, each as the contract of a call that does nothing.
#![tactic(auto)]

ghost use Rattle.agreeing_calls.specs.CheckedCalls.{EachCheckedRunAgrees, EachRefusalIsOfLength};

use agreeing_runs::laws::{agreeing_runs_agree, refused_calls_differ};

/// Where a set of files breaks no row of declarations, no call is found to disagree, and each card has one statement, no run of the set comes to a call, by
/// a name that is no dummy procedure, of a procedure of the set from which it differs in kind, in the type of the result, or in the number, kind or type of
/// its arguments.
pub fn checked_runs_agree()
    ensures { EachCheckedRunAgrees }
{
    agreeing_runs_agree();
}

/// In such a set, where a procedure refuses a call by such a name because it disagrees, a length differs: that of a character function, or that of a dummy
/// argument, which is longer than the actual argument.
pub fn refusals_are_of_length()
    ensures { EachRefusalIsOfLength }
{
    checked_runs_agree();
    refused_calls_differ();
}
