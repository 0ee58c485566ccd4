//! Laws of the verdict of a translation, each as the contract of a call that does nothing. Sections 2 to 18 of the standard, ANSI X3.9-1978.

ghost use Rattle.acceptance_laws.specs.WholeTable.{EachTranslatedSourceIsAccepted, EachEarlierRefusalIsFirst};

/// A source that is accepted for translation breaks no row of the whole table of refusals, those of storage and of what units share included.
pub fn translated_sources_are_accepted()
    ensures { EachTranslatedSourceIsAccepted }
{}

/// A first refusal of a source for translation that is no F99 is its first refusal by the whole table.
pub fn earlier_refusals_are_first()
    ensures { EachEarlierRefusalIsFirst }
{}
