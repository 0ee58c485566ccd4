//! What is assigned, returned and tested (C89, 3.6.3 to 3.6.6).

ghost use Rattle.std.specs.Prelude.{◌≡◌};
ghost use Rattle.c_tree.specs.CLabels.{no_label, labels_of};
ghost use Rattle.c_scope.specs.ScopeSeen.{scope_of};
ghost use Rattle.c_expression_reader.specs.Readings.{shown, Gives};
ghost use Rattle.c_statement_readers.specs.PartReader as reader;
ghost use Rattle.c_statement_reader.specs.Parts.{seen_right};

use crate::signs::begins_call;
use crate::within::{call_within, expression_within};
use c_expression_reader::{Failure, a_sign};
use c_lexer::{CSign, PlacedCToken};
use c_scope::CScope;
use c_tree::expression::{CCall, CExpr};
use c_tree::statement::CStmt;
use std::alloc::Global;

/// What stands behind the equals sign of an assignment, or behind `return`.
#[derive(Drop)]
pub(crate) enum Right {
    /// An expression.
    Value(CExpr),
    /// A call.
    Called(CCall),
}

/// A call where one begins, and else an expression, and the tokens behind it.
#[tactic(auto, unfolding(crate::specs::Parts::seen_right, c_statement_readers::specs::PartReader::right, c_statement_readers::specs::PartReader::right_by))]
pub(crate) fn right_side<'a>(
    alloc: Global,
    scope: &CScope,
    tokens: &'a [PlacedCToken],
    count: usize,
) -> Result<(Right, &'a [PlacedCToken]), Failure<'a>>
    ensures { Gives (λ p. (seen_right p.0, shown p.1.now)) result (reader.right (scope_of scope.now) count (shown tokens.now)) }
{
    if begins_call(scope, tokens) {
        let (call, rest) = call_within(alloc, scope, tokens, count)?;
        Ok((Right::Called(call), rest))
    } else {
        let (value, rest) = expression_within(alloc, scope, tokens, 0, count)?;
        Ok((Right::Value(value), rest))
    }
}

/// The assignment of what stands on the right.
#[tactic(auto, using(crate::proofs::LabelSums::plain_forms), unfolding(crate::specs::Parts::seen_right))]
pub(crate) fn set_to(target: CExpr, right: Right) -> CStmt
    ensures made { result ≡ reader.set_to target (seen_right right) }
    ensures plain { labels_of result ≡ no_label }
{
    match right {
        Right::Value(value) => CStmt::Set(target, value),
        Right::Called(call) => CStmt::SetCall(target, call),
    }
}

/// The return of what stands on the right.
#[tactic(auto, using(crate::proofs::LabelSums::plain_forms), unfolding(crate::specs::Parts::seen_right))]
pub(crate) fn return_of(right: Right) -> CStmt
    ensures made { result ≡ reader.return_of (seen_right right) }
    ensures plain { labels_of result ≡ no_label }
{
    match right {
        Right::Value(value) => CStmt::Return(Some(value)),
        Right::Called(call) => CStmt::ReturnCall(call),
    }
}

/// An expression in parentheses, and the tokens behind it.
#[tactic(auto, unfolding(c_statement_readers::specs::PartReader::tested, c_lexer::specs::SeenTokens::sign_codes))]
pub(crate) fn tested<'a>(
    alloc: Global,
    scope: &CScope,
    tokens: &'a [PlacedCToken],
    count: usize,
) -> Result<(CExpr, &'a [PlacedCToken]), Failure<'a>>
    ensures { Gives (λ p. (p.0, shown p.1.now)) result (reader.tested (scope_of scope.now) count (shown tokens.now)) }
{
    let rest = a_sign(CSign::OpenParenthesis, tokens)?;
    let (value, rest) = expression_within(alloc, scope, rest, 0, count)?;
    let rest = a_sign(CSign::CloseParenthesis, rest)?;
    Ok((value, rest))
}
