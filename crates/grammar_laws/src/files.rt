//! Laws of files. Sections 2.4, 3.3 and 3.5 of the standard, ANSI X3.9-1978, and MIL-STD-1753: INCLUDE. The functions here do nothing; their
//! contracts are the laws.
#![tactic(auto)]

ghost use Rattle.grammar_laws.specs.FileStatements.{EachFileSpellsOneTree, EachPartSpellsOneTree};

/// The statements of a file spell one tree at most, and those of an included file one part.
#[tactic(auto, using(crate::proofs::FileLemmas::one_file, crate::proofs::FileLemmas::one_part))]
pub fn one_file()
    ensures one { EachFileSpellsOneTree }
    ensures one_part { EachPartSpellsOneTree }
{}
