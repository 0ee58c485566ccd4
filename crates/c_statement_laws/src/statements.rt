//! Laws of statements and of the statements of a function (C89, 3.6). The functions here do nothing; their contracts are the laws.
#![tactic(auto)]

ghost use Rattle.c_statement_laws.specs.StatementLaws.{ScopesInOrder, GoodStatements, GoodBlocks, GoodBodies, ExactStatements, ExactBodies};
ghost use Rattle.c_statement_laws.specs.StatementRows.{StatementRows, BodyRows};

/// Where a name is declared, the names of a scope stay names and the parameters that point to functions stay among its objects.
#[tactic(auto, using(crate::proofs::ScopeLaws::scopes_in_order))]
pub fn scopes_in_order()
    ensures { ScopesInOrder }
{}

/// The readers of statements, of blocks and of the statements of a function take what is spelled, whatever stands behind it, refuse where what
/// stands before the offending token can be completed, and look at no token past the one at which they stop.
pub fn good_c_statements()
    ensures statements { GoodStatements }
    ensures blocks { GoodBlocks }
    ensures bodies { GoodBodies }
{}

/// The readers of statements and of the statements of a function give exactly what is spelled, and refuse exactly at the first token such that the
/// tokens up to it begin none.
#[tactic(auto, using(crate::proofs::StatementExact::exact_statements, crate::proofs::StatementExact::exact_bodies))]
pub fn exact_c_statements()
    ensures statements { ExactStatements }
    ensures bodies { ExactBodies }
{}

/// Tokens with the statements that they spell, or with the offending token.
#[tactic(auto, using(crate::proofs::StatementRowLaws::statement_rows, crate::proofs::StatementRowLaws::body_rows))]
pub fn statements_of_tokens()
    ensures statements { StatementRows }
    ensures bodies { BodyRows }
{}
