//! Texts of files of units, as the contracts of calls that do nothing.

ghost use Rattle.std.specs.Prelude.{◌≡◌, []};
ghost use Rattle.c_spelling.specs.c_tree.CText.{CText, WellFormed};
ghost use Rattle.c_spelling.specs.c_text.Printed.{printed};
ghost use Rattle.unit_programs.specs.unit_sites.UnitSites.{file_for};
ghost use Rattle.unit_programs.specs.Example.{its_constants};
ghost use Rattle.unit_file_texts.specs.WellFormedUnits.{AreSpellable, BoundsAreNamed, UnitFilesAreWellFormed};
ghost use Rattle.unit_file_texts.specs.SpelledUnits.{UnitFilesAreOfBytes, UnitFilesAreSpelled};
ghost use Rattle.unit_file_texts.specs.ExampleText.{main_file, procedures_file, main_part, procedures_part, main_text, procedures_text};

/// The name of what a function keeps of a dummy array, its lower bound or the size of a dimension, is a name of C.
pub fn bounds_are_named()
    ensures { BoundsAreNamed }
{}

/// Each C file of units that call each other is well formed: some tokens spell it, each name in it is declared before it is used and once in its scope, and
/// each label that is named stands once. Besides what makes the units run as their file does, each name and each label is one of C, an array has an element,
/// and what a function calls is declared once.
pub fn unit_files_are_well_formed()
    ensures { UnitFilesAreWellFormed }
{}

/// What is printed of such a file spells it: its strings are the texts of STOP statements, which are of bytes.
pub fn unit_files_are_spelled()
    ensures bytes { UnitFilesAreOfBytes }
    ensures spelled { UnitFilesAreSpelled }
{}

/// The file of a main program, which calls a function and a subroutine and writes its variable, and the file of the function and of the subroutine are such
/// files, so they are well formed and their printed texts, which are written here, spell them.
pub fn example_is_well_formed()
    ensures main_spellable { AreSpellable its_constants main_part }
    ensures main_formed { WellFormed (file_for main_file) }
    ensures main_spelled { CText (printed (file_for main_file)) (file_for main_file) }
    ensures main_printed { printed (file_for main_file) ≡ main_text }
    ensures procedures_spellable { AreSpellable [] procedures_part }
    ensures procedures_formed { WellFormed (file_for procedures_file) }
    ensures procedures_spelled { CText (printed (file_for procedures_file)) (file_for procedures_file) }
    ensures procedures_printed { printed (file_for procedures_file) ≡ procedures_text }
{}
