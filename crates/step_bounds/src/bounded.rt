//! How many steps the C functions of FORTRAN files have, as the contract of a call that does nothing.

ghost use Rattle.step_bounds.specs.BoundedSteps.{EachTranslationIsBounded};

use built_sizes::sized::structured_statements_have_a_size;
use lowered_sizes::bounded::lowered_steps_are_bounded;
use read_sizes::within::units_are_read_within;

/// The step factor of the C files of FORTRAN files, which is the greatest number of flat steps that a function of theirs has with those of its longest wrapper, is
/// at most a thousand times the square of the greatest number of tree nodes of a unit of the files, each reference of a statement function being expanded. So the
/// runs of the files have bounded many steps for each step of the units (2.4, 3.5 and 15.4; C89, 3.6).
pub fn translations_are_bounded()
    ensures { EachTranslationIsBounded }
{
    structured_statements_have_a_size();
    lowered_steps_are_bounded();
    units_are_read_within();
}
