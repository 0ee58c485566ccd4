//! Each operator, function and subscript that has a value in FORTRAN has it in C, without a fault.
#![tactic(auto)]

ghost use Rattle.c_image_laws.specs.FoundElements.{ElementsAreFound, TextElementsAreFound, QuantitiesAreMeant, DistancesAreMeant};
ghost use Rattle.c_image_laws.specs.Statements.{ConstantsAreMeant, PrefixesAreMeant, OperatorsAreMeant, LeftDecidesBoth, LeftDecidesEither, FunctionsAreMeant, LibraryIsMeant, ComplementIsMeant, RelationsAreMeant, ComparisonIsGiven, TextFunctionsAreMeant, SubscriptsAreMeant, ElementsAreNamed, ElementsAreSound, ShorterIsSound, ArraysAreSound, SubstringsAreSound};
ghost use Rattle.c_image_laws.specs.Tests.{ValuesAreGiven, TestsAreMeant, SwitchesAreMeant, ChoicesAreMeant};

/// Constants, operators and functions over numbers and truth values: where FORTRAN gives a value, the C expression has it, or the function of the
/// library gives it. A left operand of `.AND.` or `.OR.` that decides leaves the right one unvalued.
pub fn operators_are_meant()
    ensures constants { ConstantsAreMeant }
    ensures prefixes { PrefixesAreMeant }
    ensures operators { OperatorsAreMeant }
    ensures decides_both { LeftDecidesBoth }
    ensures decides_either { LeftDecidesEither }
    ensures functions { FunctionsAreMeant }
    ensures library { LibraryIsMeant }
    ensures complement { ComplementIsMeant }
{}

/// The relations of texts, INDEX and the lexical functions, by the functions of the library.
pub fn texts_are_compared()
    ensures relations { RelationsAreMeant }
    ensures comparison { ComparisonIsGiven }
    ensures functions { TextFunctionsAreMeant }
{}

/// The expression for the elements before an element has their number, with each step on the way in 32 bits; and the element is named where
/// FORTRAN finds it.
pub fn elements_are_found()
    ensures subscripts { SubscriptsAreMeant }
    ensures elements { ElementsAreNamed }
    ensures found { ElementsAreFound }
    ensures texts { TextElementsAreFound }
    ensures quantities { QuantitiesAreMeant }
    ensures distances { DistancesAreMeant }
{}

/// What FORTRAN derives from a sound place is sound: an element, a part of its extent, all elements of an array, and a substring.
pub fn derived_places_are_sound()
    ensures elements { ElementsAreSound }
    ensures shorter { ShorterIsSound }
    ensures arrays { ArraysAreSound }
    ensures substrings { SubstringsAreSound }
{}

/// The value of an expression is what an assignment takes, what a test or a switch goes by, and that of the arm that `?:` takes.
pub fn values_are_used()
    ensures given { ValuesAreGiven }
    ensures tests { TestsAreMeant }
    ensures switches { SwitchesAreMeant }
    ensures choices { ChoicesAreMeant }
{}
