//! Translations and the FORTRAN files that they are of, as the contracts of calls that do nothing.

ghost use Rattle.translated_laws.specs.FaithfulTranslations.{EachTranslatedFileHasOne, EachTranslationIsFaithful};

use named_main_laws::bodies::named_bodies_are_bodies;
use named_main_laws::strings::main_files_are_of_bytes;
use plain_files::faithful_files::plain_files_are_faithful;
use plain_mains::tells::plain_mains_are_told;

/// A FORTRAN file of which no statement is of a form that is not translated yet has a C file.
pub fn translated_files_have_one()
    ensures { EachTranslatedFileHasOne }
{}

/// The text of the C file of a FORTRAN file that breaks no row: it spells a C file, has the functions of the program and links, and over each setting, from
/// every state of the units and for every number of statement steps, the run of the program never comes to a form without meaning, and where it is defined the
/// run of the text is the same after some number of its own steps, no fewer and no more than the step factor times as many (2.4 and 14).
pub fn translations_are_faithful()
    ensures { EachTranslationIsFaithful }
{
    plain_mains_are_told();
    named_bodies_are_bodies();
    main_files_are_of_bytes();
    plain_files_are_faithful();
}
