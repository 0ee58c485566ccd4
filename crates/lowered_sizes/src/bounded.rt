//! How many steps lowered program units have, as the contract of a call that does nothing.

ghost use Rattle.lowered_sizes.specs.ReadNodes.{EachTextIsBounded};

/// The text of a lowered unit has at most five steps for each node of its statements as they are read, and two for each two of its statements, of which one may
/// end a loop that the other begins, or go to a label that the other names in ASSIGN (6, 10 to 12 and 15; MIL-STD-1753 for DO WHILE).
pub fn lowered_steps_are_bounded()
    ensures { EachTextIsBounded }
{}
