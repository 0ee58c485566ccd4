//! Texts of main programs and of their parts, as the contracts of calls that do nothing.

ghost use Rattle.main_translation_laws.specs.c_tree.CText.{WellFormed};
ghost use Rattle.main_translation_laws.specs.main_file.MainFile.{main_file};
ghost use Rattle.main_translation_laws.specs.main_translation.Contents.{inventory_of};
ghost use Rattle.main_translation_laws.specs.Example.{its_unit, its_text, its_statements};
ghost use Rattle.main_file_texts.specs.WellFormedMains.{ExpressionsAreSpelled, StatementsAreSpelled, IsSpellable, MainFilesAreWellFormed};

/// The expression that is built for a linked one without fields is spelled by some tokens, where what its names stand for is declared.
pub fn expressions_are_spelled()
    ensures { ExpressionsAreSpelled }
{}

/// The statements that are built for items are spelled by some tokens, where what their names stand for is declared, and each label that they name is said to
/// stand before an item.
pub fn statements_are_spelled()
    ensures { StatementsAreSpelled }
{}

/// The C file that is made for a plain main program is well formed: some tokens spell it, each name in it is a name of C that is declared before it is used and
/// once in its scope, and each label that is named stands once. Besides what makes the program plain, its names begin with a letter, and its arrays have an
/// element.
pub fn main_files_are_well_formed()
    ensures { MainFilesAreWellFormed }
{}

/// A main program with a loop, two arms, an output and a branch is such a one, so its file is well formed.
pub fn example_is_well_formed()
    ensures spellable { IsSpellable its_unit }
    ensures formed { WellFormed (main_file (inventory_of its_unit its_text) its_statements) }
{}
