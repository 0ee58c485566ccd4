//! Instances of what the laws ask for.

ghost use Rattle.unit_programs.specs.Example.{its_files, its_renderings};
ghost use Rattle.unit_programs.specs.KeptExample.{kept_files, kept_renderings};
ghost use Rattle.unit_programs.specs.TranslatedUnits.{IsTranslatedSet};

/// What is asked of files is met by two: that of a main program, which calls a function and a subroutine and writes its variable, and that of the function and
/// the subroutine.
pub fn example_is_translated()
    ensures { IsTranslatedSet its_files its_renderings }
{}

/// What is asked of files is met by that of a main program that passes an array, and of a subroutine that keeps the bounds of its dummy array before its first
/// statement: the size is another dummy.
pub fn kept_example_is_translated()
    ensures { IsTranslatedSet kept_files kept_renderings }
{}
