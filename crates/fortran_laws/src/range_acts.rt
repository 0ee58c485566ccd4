//! What is proved of the first range act of a run, as the contract of a call that does nothing.
#![tactic(auto)]

ghost use Rattle.fortran_laws.specs.RangeActStatements.{ComputedIsFirst, FirstIsComputed, FirstRangeActIsOne};

/// A run has one first range act at most, and what is computed over so many steps is this act, exactly where it comes within them.
pub fn first_range_acts_are_told()
    ensures one { FirstRangeActIsOne }
    ensures computed { ComputedIsFirst }
    ensures found { FirstIsComputed }
{}
