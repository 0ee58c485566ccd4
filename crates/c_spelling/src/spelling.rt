//! Printed texts spell the trees that they print (C89, 3.7). A function here does nothing, and its
//! contract is the law.

ghost use Rattle.c_spelling.specs.Spelled.{EachPrintedExpressionIsRead, EachPrintedCallIsRead, EachPrintedStatementIsRead, EachPrintedFileIsSpelled, PrintedTextsTellFilesApart, EachSpelledFileIsPrintedAgain, EachTextIsOfByteStrings};

/// What is printed of an expression or a call is read as it, where some tokens spell it: parentheses
/// stand wherever the grammar needs them, and no two signs read as one.
#[tactic(auto, using(crate::proofs::Readings::expression_text, crate::proofs::Readings::call_text))]
pub fn printed_expressions_are_read()
    ensures expressions { EachPrintedExpressionIsRead }
    ensures calls { EachPrintedCallIsRead }
{}

/// What is printed of a statement is read as it, where some tokens spell it and the labels that it
/// names are names.
#[tactic(auto, using(crate::proofs::Readings::statement_text))]
pub fn printed_statements_are_read()
    ensures statements { EachPrintedStatementIsRead }
{}

/// The printed text of each well-formed file whose strings are of bytes spells the file, so that such
/// files with one printed text are one file.
#[tactic(auto, using(crate::proofs::Files::file_spelled, crate::proofs::Readings::files_apart))]
pub fn printed_files_are_spelled()
    ensures spelled { EachPrintedFileIsSpelled }
    ensures apart { PrintedTextsTellFilesApart }
{}

/// The printed text of the file that a text spells spells that file too. What this asks of a file's
/// strings, that they are of bytes, holds of each file that has a text.
#[tactic(auto, using(crate::proofs::Readings::printed_again, crate::proofs::FilesBytes::strings_of_a_text))]
pub fn spelled_files_are_printed_again()
    ensures again { EachSpelledFileIsPrintedAgain }
    ensures byte_strings { EachTextIsOfByteStrings }
{}
