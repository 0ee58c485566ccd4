//! Laws of sources, each as the contract of a call that does nothing. Sections 2 to 18 of the standard, ANSI X3.9-1978.

ghost use Rattle.source_laws.specs.SourceStatements.{EachAcceptedSourceIsMeant, EachSourceSpellsOneSet, NoAcceptedSourceIsRefused, OneFirstRefusal};

/// A source spells one set of trees at most, has one first refusal at most, by its file, its card and its number, and none
/// where it is accepted.
pub fn sources_are_read_in_one_way()
    ensures trees { EachSourceSpellsOneSet }
    ensures refusals { OneFirstRefusal }
    ensures accepted { NoAcceptedSourceIsRefused }
{}

/// An accepted source is well formed in each of its settings, and no run of it comes to a form without meaning.
pub fn accepted_sources_are_meant()
    ensures { EachAcceptedSourceIsMeant }
{}
