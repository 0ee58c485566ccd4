//! Sets of files that are accepted for translation, as the contract of a call that does nothing.

ghost use Rattle.translated_sets.specs.FaithfulSets.{EachAcceptedSetIsFaithful, EachAcceptedSetHasSignatures};

use translated_file_laws::translations::{translations_are_faithful, translations_have_signatures};

/// The translations of the files of a set that is accepted for translation, and has a file, are faithful to it (2.4, 3.5 and 14).
pub fn accepted_sets_are_faithful()
    ensures { EachAcceptedSetIsFaithful }
{
    translations_are_faithful();
}

/// The C files of a set that is accepted for translation, and has a file, have exactly the functions of its units, with their parameters, and its external
/// objects (8.3 and 15.5 to 15.7).
pub fn accepted_sets_have_signatures()
    ensures { EachAcceptedSetHasSignatures }
{
    translations_have_signatures();
}
