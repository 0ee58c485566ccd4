//! The law of sources whose calls are checked. Sections 15.5.2, 15.6.2 and 15.9.3 of the standard, ANSI X3.9-1978.

ghost use Rattle.checked_sources.specs.CheckedSources.{EachCheckedSourceRuns};

use agreeing_calls::laws::checked_runs_agree;
use card_statements::laws::each_card_has_one_statement;

/// Where a source is accepted for a check of its calls and none is found to disagree, no run of its set comes to a call, by a name that is no dummy
/// procedure, of a procedure of the set from which it differs in kind, in the type of the result, or in the number, kind or type of its arguments.
pub fn checked_sources_run()
    ensures { EachCheckedSourceRuns }
{
    checked_runs_agree();
    each_card_has_one_statement();
}
