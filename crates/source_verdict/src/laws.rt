//! What is proved of the first refusal of a source.

ghost use Rattle.source_verdict.specs.Fronts.{AcceptedByFronts, RefusedByFronts};
ghost use Rattle.source_verdict.specs.SourceRows.{AcceptedIsNotRefused, OneFirstRefusal, OneSetIsAccepted, TranslatedIsChecked};

/// A source that is accepted for a purpose has no first refusal for it; it is accepted with one set of trees at most, and has one first refusal at most, by its file,
/// its card and its number.
pub fn sources_have_one_verdict()
    ensures accepted { AcceptedIsNotRefused }
    ensures trees { OneSetIsAccepted }
    ensures refusals { OneFirstRefusal }
{}

/// A source that is accepted for translation is accepted for checking, with the same trees.
pub fn translated_sources_are_checked()
    ensures { TranslatedIsChecked }
{}

/// What is read of a source, the fronts of its files with one byte more than a file may have, is enough: what is refused by it is refused, and
/// what is accepted by it is the source.
pub fn sources_are_judged_by_fronts()
    ensures refused { RefusedByFronts }
    ensures accepted { AcceptedByFronts }
{}
