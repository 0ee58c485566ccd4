//! Assignments, calls and returns (C89, 3.3.16, 3.6.3 and 3.6.6.4).

ghost use Rattle.std.specs.Prelude.{◌≡◌, IfOk};
ghost use Rattle.c_tree.specs.CLabels.{no_label, labels_of};
ghost use Rattle.c_scope.specs.ScopeSeen.{scope_of};
ghost use Rattle.c_expression_reader.specs.Readings.{shown, Gives};
ghost use Rattle.c_statement_readers.specs.PartReader as reader;

use crate::parts::{return_of, right_side, set_to};
use crate::signs::{begins_call, is_semicolon};
use crate::within::{call_within, expression_within};
use c_expression_reader::{Failure, a_sign};
use c_lexer::{CSign, CToken, PlacedCToken};
use c_scope::CScope;
use c_tree::expression::CExpr;
use c_tree::statement::CStmt;
use std::alloc::Global;

/// Behind what is assigned to: the equals sign, what is assigned, and the semicolon.
#[tactic(auto, unfolding(c_statement_readers::specs::PartReader::assigned, c_lexer::specs::SeenTokens::sign_codes))]
fn assigned<'a>(
    alloc: Global,
    scope: &CScope,
    target: CExpr,
    tokens: &'a [PlacedCToken],
    count: usize,
) -> Result<(CStmt, &'a [PlacedCToken]), Failure<'a>>
    ensures read { Gives (λ p. (p.0, shown p.1.now)) result (reader.assigned (scope_of scope.now) count target (shown tokens.now)) }
    ensures plain { IfOk result (λ p. labels_of p.0 ≡ no_label) }
{
    let rest = a_sign(CSign::Assign, tokens)?;
    let (right, rest) = right_side(alloc, scope, rest, count)?;
    let rest = a_sign(CSign::Semicolon, rest)?;
    Ok((set_to(target, right), rest))
}

/// An assignment, and the tokens behind it.
#[tactic(auto, unfolding(c_statement_readers::specs::PartReader::assignment))]
fn assignment<'a>(
    alloc: Global,
    scope: &CScope,
    tokens: &'a [PlacedCToken],
    count: usize,
) -> Result<(CStmt, &'a [PlacedCToken]), Failure<'a>>
    ensures read { Gives (λ p. (p.0, shown p.1.now)) result (reader.assignment (scope_of scope.now) count (shown tokens.now)) }
    ensures plain { IfOk result (λ p. labels_of p.0 ≡ no_label) }
{
    let (target, rest) = expression_within(alloc, scope, tokens, 7, count)?;
    assigned(alloc, scope, target, rest, count)
}

/// A call that is a statement, and the tokens behind it.
#[tactic(auto, using(crate::proofs::LabelSums::plain_forms), unfolding(c_statement_readers::specs::PartReader::call_statement, c_lexer::specs::SeenTokens::sign_codes))]
fn call_statement<'a>(
    alloc: Global,
    scope: &CScope,
    tokens: &'a [PlacedCToken],
    count: usize,
) -> Result<(CStmt, &'a [PlacedCToken]), Failure<'a>>
    ensures read { Gives (λ p. (p.0, shown p.1.now)) result (reader.call_statement (scope_of scope.now) count (shown tokens.now)) }
    ensures plain { IfOk result (λ p. labels_of p.0 ≡ no_label) }
{
    let (call, rest) = call_within(alloc, scope, tokens, count)?;
    let rest = a_sign(CSign::Semicolon, rest)?;
    Ok((CStmt::Call(call), rest))
}

/// A statement that is a call or an assignment, and the tokens behind it.
#[tactic(auto, unfolding(c_statement_readers::specs::PartReader::simple, c_statement_readers::specs::PartReader::simple_by))]
pub(crate) fn simple<'a>(
    alloc: Global,
    scope: &CScope,
    tokens: &'a [PlacedCToken],
    count: usize,
) -> Result<(CStmt, &'a [PlacedCToken]), Failure<'a>>
    ensures read { Gives (λ p. (p.0, shown p.1.now)) result (reader.simple (scope_of scope.now) count (shown tokens.now)) }
    ensures plain { IfOk result (λ p. labels_of p.0 ≡ no_label) }
{
    if begins_call(scope, tokens) {
        call_statement(alloc, scope, tokens, count)
    } else {
        assignment(alloc, scope, tokens, count)
    }
}

/// What is returned, and the semicolon behind it.
#[tactic(auto, unfolding(c_statement_readers::specs::PartReader::returned_value, c_lexer::specs::SeenTokens::sign_codes))]
fn returned_value<'a>(
    alloc: Global,
    scope: &CScope,
    tokens: &'a [PlacedCToken],
    count: usize,
) -> Result<(CStmt, &'a [PlacedCToken]), Failure<'a>>
    ensures read { Gives (λ p. (p.0, shown p.1.now)) result (reader.returned_value (scope_of scope.now) count (shown tokens.now)) }
    ensures plain { IfOk result (λ p. labels_of p.0 ≡ no_label) }
{
    let (right, rest) = right_side(alloc, scope, tokens, count)?;
    let rest = a_sign(CSign::Semicolon, rest)?;
    Ok((return_of(right), rest))
}

/// Behind `return`: what is returned, if something is, and the semicolon.
#[tactic(auto, using(crate::proofs::LabelSums::plain_forms), unfolding(c_expression_reader::specs::Readings::shown, c_lexer::specs::SeenTokens::seen, c_statement_readers::specs::PartReader::returned, c_statement_readers::specs::PartReader::returned_by))]
pub(crate) fn returned<'a>(
    alloc: Global,
    scope: &CScope,
    tokens: &'a [PlacedCToken],
    count: usize,
) -> Result<(CStmt, &'a [PlacedCToken]), Failure<'a>>
    ensures read { Gives (λ p. (p.0, shown p.1.now)) result (reader.returned (scope_of scope.now) count (shown tokens.now)) }
    ensures plain { IfOk result (λ p. labels_of p.0 ≡ no_label) }
{
    match tokens {
        [
            PlacedCToken {
                token: CToken::Sign(sign),
                ..
            },
            rest @ ..,
        ] if is_semicolon(*sign) => Ok((CStmt::Return(None), rest)),
        _ => returned_value(alloc, scope, tokens, count),
    }
}
