//! The loops and the labels of lowered program units, as the contract of a call that does nothing.

ghost use Rattle.loop_marks.specs.MarkedLoops.{EachBranchIsNamed, EachTextMarksItsLoops};

/// The text of a lowered unit, whose DO statements begin no arm of a block and stand before their terminal statements, marks a loop for each DO statement,
/// which begins where the variable gets its first value, with the test behind it, or, where the ranges of loops are run at least once, behind its turn, to which
/// it goes back; and it marks a place for each DO WHILE (11.10; MIL-STD-1753). The steps of each lowered unit branch to no labels but those that its statements
/// name (10.3, 11.1 to 11.4).
pub fn lowered_units_mark_loops()
    ensures loops { EachTextMarksItsLoops }
    ensures labels { EachBranchIsNamed }
{}
