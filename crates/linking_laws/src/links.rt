//! Functions, objects and names of a program, as contracts of calls that do nothing.

ghost use Rattle.linking_laws.specs.Linked.{FunctionsStand, ExternalsStand, ConstantsStand, FunctionsHaveObjects, ScopesAreKnown, FileScopesAreKnown, OwnAreNumbered, BuiltinsAreNumbered, StringsAreTheirs, CodeIsTheirs};

/// Each function of a file, each external object and each constant stands in the linked program: by its number, and with its objects one behind the
/// other, those that last, its strings and its frame.
pub fn programs_have_their_parts()
    ensures functions { FunctionsStand }
    ensures externals { ExternalsStand }
    ensures constants { ConstantsStand }
    ensures objects { FunctionsHaveObjects }
{}

/// A name in scope stands for the object or the function that is declared by it: in a function, in its file, and among the functions of the program
/// and of the library.
pub fn names_are_known()
    ensures locals { ScopesAreKnown }
    ensures files { FileScopesAreKnown }
    ensures own { OwnAreNumbered }
    ensures builtins { BuiltinsAreNumbered }
{}

/// A function whose statements were built for items has these items as its code, and their strings as its own.
pub fn code_is_theirs()
    ensures strings { StringsAreTheirs }
    ensures code { CodeIsTheirs }
{}
