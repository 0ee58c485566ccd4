//! Worked pairs of files and texts, with both runs side by side.

ghost use Rattle.std.specs.Prelude.{[], ◌∷◌, codes};
ghost use Rattle.faithful.specs.f_tree.Runs.{standard_units};
ghost use Rattle.faithful.specs.UnitsAtStart.{IsUnits};
ghost use Rattle.faithful_rows.specs.Pairs.{element_passed, entry_called, results_given, storage_shared, numbers_read, columns_read, written_inside, shorter_dummy, columns_written};
ghost use Rattle.faithful_rows.specs.PairRuns.{AreAlike, AreNamed};

/// The standard units, with a record to read, are such as a run may begin with.
pub fn standard_units_are_units()
    ensures { IsUnits (standard_units (codes "7 8" ∷ [])) }
{}

/// A subroutine with a dummy on an element of its caller's array, with both active.
pub fn element_is_passed()
    ensures named { AreNamed element_passed }
    ensures assigned { AreAlike element_passed 1 1 }
    ensures called { AreAlike element_passed 2 2 }
    ensures changed { AreAlike element_passed 3 3 }
    ensures answered { AreAlike element_passed 4 4 }
    ensures ended { AreAlike element_passed 5 5 }
{}

/// An entry with a text of any length and a procedure, called through its wrapper; and the procedure called by it.
pub fn entry_is_called()
    ensures named { AreNamed entry_called }
    ensures called { AreAlike entry_called 2 3 }
    ensures passed_on { AreAlike entry_called 3 6 }
    ensures ended { AreAlike entry_called 6 10 }
{}

/// A function of each type, with its result defined and its dummy on a constant.
pub fn results_are_given()
    ensures named { AreNamed results_given }
    ensures an_integer { AreAlike results_given 2 2 }
    ensures a_logical { AreAlike results_given 6 6 }
    ensures a_text { AreAlike results_given 10 10 }
    ensures ended { AreAlike results_given 13 13 }
{}

/// A common block that DATA defines, an EQUIVALENCE class outside common, and a name of BLOCK DATA that stands nowhere.
pub fn storage_is_shared()
    ensures named { AreNamed storage_shared }
    ensures start { AreAlike storage_shared 0 0 }
    ensures common { AreAlike storage_shared 1 1 }
    ensures class { AreAlike storage_shared 2 2 }
    ensures ended { AreAlike storage_shared 3 3 }
{}

/// A list-directed input, before its first item and behind each.
pub fn numbers_are_read()
    ensures named { AreNamed numbers_read }
    ensures started { AreAlike numbers_read 1 1 }
    ensures one_item { AreAlike numbers_read 2 2 }
    ensures two_items { AreAlike numbers_read 3 3 }
    ensures finished { AreAlike numbers_read 4 4 }
    ensures ended { AreAlike numbers_read 5 5 }
{}

/// A formatted input, whose format has other blanks and letters in C, before its first item and behind each.
pub fn columns_are_read()
    ensures named { AreNamed columns_read }
    ensures started { AreAlike columns_read 1 1 }
    ensures one_item { AreAlike columns_read 2 2 }
    ensures two_items { AreAlike columns_read 3 3 }
    ensures finished { AreAlike columns_read 4 4 }
    ensures ended { AreAlike columns_read 5 5 }
{}

/// A formatted output to an internal file, before its item and behind it.
pub fn text_is_written_inside()
    ensures named { AreNamed written_inside }
    ensures started { AreAlike written_inside 1 1 }
    ensures one_item { AreAlike written_inside 2 3 }
    ensures finished { AreAlike written_inside 3 4 }
    ensures ended { AreAlike written_inside 4 5 }
{}

/// A dummy text that is shorter than what is passed for it, with both procedures active: the length that is passed is that of the whole.
pub fn dummy_is_shorter()
    ensures named { AreNamed shorter_dummy }
    ensures assigned { AreAlike shorter_dummy 1 1 }
    ensures called { AreAlike shorter_dummy 2 2 }
    ensures changed { AreAlike shorter_dummy 3 3 }
    ensures answered { AreAlike shorter_dummy 4 4 }
    ensures ended { AreAlike shorter_dummy 5 5 }
{}

/// A formatted output on a unit, whose second item begins a second record: before its first item and behind each.
pub fn columns_are_written()
    ensures named { AreNamed columns_written }
    ensures started { AreAlike columns_written 2 2 }
    ensures one_item { AreAlike columns_written 3 3 }
    ensures two_items { AreAlike columns_written 4 4 }
    ensures finished { AreAlike columns_written 5 5 }
    ensures ended { AreAlike columns_written 6 6 }
{}
