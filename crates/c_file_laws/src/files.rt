//! Laws of files (C89, 3.7). The functions here do nothing; their contracts are the laws.
#![tactic(auto)]

ghost use Rattle.c_file_laws.specs.FileLaws.{ExactFiles, RefusedLines, TextsRead};
ghost use Rattle.c_file_laws.specs.FileRows.{FileRows};

/// The reader of files gives exactly the file that all tokens spell, refuses exactly at the first token such that the tokens up to it begin no file,
/// or at their end, and gives no answer only where the tokens are as many as the nests that it may open.
#[tactic(auto, using(crate::proofs::FileLaws::exact_c_files))]
pub fn exact_c_files()
    ensures { ExactFiles }
{}

/// A text whose tokens the reader refuses is refused at the line of the token at which it stops, or of the end of the text; one whose tokens it reads
/// is that of the file.
#[tactic(auto, using(crate::proofs::FileLaws::refused_c_lines, crate::proofs::FileLaws::c_texts_read))]
pub fn refused_c_texts()
    ensures lines { RefusedLines }
    ensures texts { TextsRead }
{}

/// Tokens with the file that they spell, or with the offending token.
#[tactic(auto, using(crate::proofs::FileRowLaws::file_rows))]
pub fn files_of_tokens()
    ensures { FileRows }
{}
