//! How many bytes the objects of the C files of FORTRAN files have, as the contract of a call that does nothing.

ghost use Rattle.object_bounds.specs.BoundedObjects.{EachTranslationHasFewBytes};

use built_strings::strings::structured_statements_have_their_strings;
use emitted_strings::strings::items_have_the_strings_of_their_steps;
use linked_sizes::sized::programs_have_few_bytes;
use lowered_objects::few::lowered_texts_need_few_objects;
use plain_units::units::plain_units_are_told;
use read_sizes::within::units_are_read_within;

/// The objects of the C files of FORTRAN files have at most the bytes of the sequences of the units, a thousand for each tree node of these, each reference of a
/// statement function being expanded, and one for each character of the texts of their STOP statements. So what the files take is bounded by what the units have
/// (3.5, 11.12, 15.4 and 17.1; C89, 3.1.2.4 and 3.1.2.5).
pub fn translations_have_few_bytes()
    ensures { EachTranslationHasFewBytes }
{
    plain_units_are_told();
    units_are_read_within();
    lowered_texts_need_few_objects();
    structured_statements_have_their_strings();
    items_have_the_strings_of_their_steps();
    programs_have_few_bytes();
}
