//! Laws of statements. Sections 7 to 16 of the standard, ANSI X3.9-1978, and MIL-STD-1753. The functions here do nothing; their contracts are
//! the laws.
#![tactic(auto)]

ghost use Rattle.grammar_laws.specs.StatementTexts.{AllAre, IsNone, IsStatement, other_texts, statement_texts};
ghost use Rattle.grammar_laws.specs.StatementRows.{AllSay, flow_rows, declaration_rows, transfer_rows};
ghost use Rattle.grammar_laws.specs.StatementStatements.{OneStatement, StatementsReadAreSpelled, StatementsSpelledAreRead};

/// The pieces of a statement spell one tree at most.
#[tactic(auto, using(crate::proofs::StatementLaws::one_statement))]
pub fn one_statement()
    ensures one { OneStatement }
{}

/// The reader of statements gives a tree exactly where the pieces spell one, and it is that tree.
#[tactic(auto, using(crate::proofs::StatementLaws::statement_sound, crate::proofs::StatementLaws::statement_complete))]
pub fn exact_statement()
    ensures read { StatementsReadAreSpelled }
    ensures spelled { StatementsSpelledAreRead }
{}

/// Pieces with the statement that they spell, or none: assignments, branches, loops and calls; specification statements and headers;
/// transfers and statements on units.
#[tactic(auto, using(crate::proofs::StatementRowLaws::flow, crate::proofs::StatementRowLaws::declarations, crate::proofs::StatementRowLaws::transfers))]
pub fn statements_of_pieces()
    ensures flow { AllSay flow_rows }
    ensures declarations { AllSay declaration_rows }
    ensures transfers { AllSay transfer_rows }
{}

/// Texts of statements, by their kind and their pieces, spell a tree, and others spell none.
#[tactic(auto, using(crate::proofs::StatementTextLaws::statements, crate::proofs::StatementTextLaws::others))]
pub fn statements_of_texts()
    ensures statements { AllAre IsStatement statement_texts }
    ensures others { AllAre IsNone other_texts }
{}
