//! Laws of expressions. Section 6 of the standard, ANSI X3.9-1978. The functions here do nothing; their contracts are the laws.
#![tactic(auto)]

ghost use Rattle.grammar_laws.specs.ExpressionStatements.{OneExpression, OnePlace, ExactExpression, ExactPlace};
ghost use Rattle.grammar_laws.specs.ExpressionRows.{AllSay, operator_rows, name_rows};

/// Pieces spell one expression at most, and one place at most.
#[tactic(auto, using(crate::proofs::ExpressionExact::one_expression, crate::proofs::ExpressionExact::one_place))]
pub fn one_expression()
    ensures one { OneExpression }
    ensures one_place { OnePlace }
{}

/// The readers of expressions and of places give exactly what is spelled, where what follows does not go on.
#[tactic(auto, using(crate::proofs::ExpressionExact::expression_exact, crate::proofs::ExpressionExact::place_exact_before_operators))]
pub fn exact_expression()
    ensures exact { ExactExpression }
    ensures exact_place { ExactPlace }
{}

/// Pieces with the expression that they spell, or none: operators and signs, and names with parentheses.
#[tactic(auto, using(crate::proofs::ExpressionRowLaws::operators, crate::proofs::ExpressionRowLaws::names))]
pub fn expressions_of_pieces()
    ensures operators { AllSay operator_rows }
    ensures names { AllSay name_rows }
{}
