//! Translations and the FORTRAN files that they are of, as the contracts of calls that do nothing.

ghost use Rattle.translated_file_laws.specs.FaithfulFiles.{EachTranslatedSetHasFiles, EachTranslationIsFaithful, EachTranslationHasSignatures};

use named_unit_laws::bodies::named_units_are_units;
use plain_unit_files::faithful_files::plain_unit_sets_are_faithful;

/// FORTRAN files of which no statement is of a form that is not translated yet have C files.
pub fn translated_sets_have_files()
    ensures { EachTranslatedSetHasFiles }
{}

/// The texts of the C files of FORTRAN files that break no row: each spells a C file, which has the functions of the units of its FORTRAN file with their
/// parameters, and where the set is closed they link, and over each setting, from every state of the external units and for every number of statement steps,
/// the run of the units never comes to a form without meaning, and where it is defined the run of the texts is the same after some number of its own steps,
/// no fewer and no more than the step factor times as many (2.4, 3.5, 14 and 15).
pub fn translations_are_faithful()
    ensures { EachTranslationIsFaithful }
{
    named_units_are_units();
    plain_unit_sets_are_faithful();
}

/// The C files of FORTRAN files that break no row have exactly the functions of the units of these, with their parameters, and their external objects (15.5 to
/// 15.7 and 8.3).
pub fn translations_have_signatures()
    ensures { EachTranslationHasSignatures }
{
    named_units_are_units();
}
