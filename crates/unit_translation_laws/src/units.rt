//! Units of numbers that call each other and what is made for them, as the contract of a call that does nothing.

ghost use Rattle.std.specs.Prelude.{◌≡◌, Some};
ghost use Rattle.unit_programs.specs.Example.{its_constants};
ghost use Rattle.unit_translation.specs.UnitBodies.{written_files};
ghost use Rattle.unit_translation.specs.UnitContents.{constants_passed};
ghost use Rattle.unit_translation_laws.specs.Example.{its_lowered_units, its_lowered_files, its_written_files, its_lowered_apart, its_written_apart};
ghost use Rattle.unit_translation_laws.specs.PlainUnits.{ArePlainUnits, PlainUnitsRunAlike};
ghost use Rattle.unit_translation_laws.specs.RenderedUnits.{PlainUnitsAreRendered};

/// Units whose names are integers, logicals and procedures, with storage of their own, in any number of files, are translated where each is lowered and statements
/// are made for it: their functions stand in the C files that `unit_translation` makes.
pub fn plain_units_are_rendered()
    ensures { PlainUnitsAreRendered }
{}

/// Such units run as these C files, for every state of the external units and every number of steps. What is asked of a unit is said of its statements and names
/// alone; names in C, types of temporaries, labels, constants and declarations of functions need no care of the caller.
pub fn plain_units_run_alike()
    ensures { PlainUnitsRunAlike }
{}

/// A main program that calls a function and a subroutine and writes its variable, the function, and the subroutine: all that is asked of them is so, and the
/// functions that are said are made for them, in one file and in two.
pub fn example_is_made()
    ensures constants { constants_passed its_lowered_units ≡ its_constants }
    ensures made { written_files its_lowered_files ≡ Some its_written_files }
    ensures made_apart { written_files its_lowered_apart ≡ Some its_written_apart }
    ensures plain { ArePlainUnits its_lowered_units }
{}
