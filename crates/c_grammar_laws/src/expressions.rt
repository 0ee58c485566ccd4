//! Laws of expressions and calls (C89, 3.3). The functions here do nothing; their contracts are the laws.
#![tactic(auto)]

ghost use Rattle.c_grammar_laws.specs.ExpressionLaws.{GoodExpressions, GoodArguments, GoodCalls, ExactExpressions, ExactArguments, ExactCalls};
ghost use Rattle.c_grammar_laws.specs.ExpressionRows.{ExpressionRows, CallRows};

/// The readers of expressions, of arguments and of calls take what is spelled, whatever stands behind it, refuse where what stands before the
/// offending token can be completed, and look at no token past the one at which they stop.
pub fn good_c_readers()
    ensures expressions { GoodExpressions }
    ensures arguments { GoodArguments }
    ensures calls { GoodCalls }
{}

/// The readers of expressions give exactly what is spelled, and refuse exactly at the first token such that the tokens up to it begin no expression.
#[tactic(auto, using(crate::proofs::ExpressionExact::exact_expressions))]
pub fn exact_c_expressions()
    ensures { ExactExpressions }
{}

/// The readers of arguments and of calls do so too.
#[tactic(auto, using(crate::proofs::ExpressionExact::exact_arguments, crate::proofs::ExpressionExact::exact_calls))]
pub fn exact_c_calls()
    ensures arguments { ExactArguments }
    ensures calls { ExactCalls }
{}

/// Tokens with the expression or the call that they spell, or with the offending token.
#[tactic(auto, using(crate::proofs::ExpressionRowLaws::expression_rows, crate::proofs::ExpressionRowLaws::call_rows))]
pub fn expressions_of_tokens()
    ensures expressions { ExpressionRows }
    ensures calls { CallRows }
{}
