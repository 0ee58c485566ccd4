//! The loops of program units and of their C functions, as the contract of a call that does nothing.

ghost use Rattle.kept_loops.specs.Examples.{ExampleIsCounted};
ghost use Rattle.kept_loops.specs.KeptFunctions.{EachTranslationKeepsLoops};

use behind_units::units_stand_behind;
use c_loops::built::structured_statements_keep_loops;
use loop_marks::marked::lowered_units_mark_loops;

/// The C files of FORTRAN files have a function for each unit, of its name, that keeps its loops: one `for` for each DO statement and each implied DO, the
/// loops of DO statements being `do`s where their ranges are run at least once; and each label that a `goto` or a `case` names is that of a label of the
/// unit which a branch, an ASSIGN, an alternate return argument, END= or ERR= names, that of an entry, or one of the made labels, of which there is at most
/// one for each transfer and each DO WHILE of the unit. A `goto` or a `case` to a label of an entry or to a made one stands before that label in the text;
/// at most one made label for each DO WHILE is excepted (2.4, 3.4, 11.1 to 11.4, 11.10 and 12.8.2.3; MIL-STD-1753; C89, 3.6.1 and 3.6.4 to 3.6.6).
pub fn translations_keep_loops()
    ensures { EachTranslationKeepsLoops }
{
    structured_statements_keep_loops();
    lowered_units_mark_loops();
    units_stand_behind();
}

/// A unit with two loops that end with one statement, a DO WHILE and a GO TO has two DO statements and a DO WHILE, and its function two `for`s, and jumps to
/// one label of the unit, ahead, and to one made label, back; where loops are run at least once it has two `do`s and no `for`. A loop that is written with
/// jumps is no loop, and is refused where there is a transfer and no DO WHILE, though jumps ahead to the same made label are right there.
pub fn example_is_counted()
    ensures { ExampleIsCounted }
{}
