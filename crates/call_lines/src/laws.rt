//! What is proved of the FORTRAN names of lines.

ghost use Rattle.call_lines.specs.LineShapes.{FortranNamesAreFound, FoundNamesAreNamedSo};

/// A FORTRAN name is found by the name that C has for it, and what is found is a name for which C has that one.
pub fn fortran_names_are_found()
    ensures found { FortranNamesAreFound }
    ensures named { FoundNamesAreNamedSo }
{}
