//! The head of a `for` (C89, 3.6.5.3).

ghost use Rattle.std.specs.Prelude.{◌≡◌, ◌≤◌, [], Some, option_map};
ghost use Rattle.c_lexer.specs.SeenTokens.{sign_codes};
ghost use Rattle.c_readers.specs.Readers.{lookup};
ghost use Rattle.c_scope.specs.ScopeSeen.{scope_of};
ghost use Rattle.c_expression_reader.specs.Readings.{shown, Gives};
ghost use Rattle.c_statement_readers.specs.PartReader as reader;
ghost use Rattle.c_statement_reader.specs.Parts.{seen_step, seen_head};
ghost use Rattle.c_statement_reader.specs.Pieces.{value_and, turn_and, for_start, for_tests};

use crate::within::expression_within;
use c_expression_reader::{Failure, a_sign};
use c_lexer::{CSign, CToken, PlacedCToken};
use c_scope::CScope;
use c_tree::expression::CExpr;
use c_tree::statement::CNext;
use std::alloc::Global;

/// What a sign begins that stands first in what a `for` does after each turn.
#[derive(Clone, Copy)]
pub(crate) enum Step {
    /// `++`
    Upward,
    /// `--`
    Downward,
}

/// The head of a `for`: what is assigned to, what it is first, the test, and what is done after each turn.
#[derive(Drop)]
pub(crate) struct ForHead {
    pub(crate) target: CExpr,
    pub(crate) first: CExpr,
    pub(crate) test: CExpr,
    pub(crate) turn: CNext,
}

/// What a sign begins in what a `for` does after each turn, if it begins something.
#[tactic(auto, unfolding(crate::specs::Parts::seen_step, c_lexer::specs::SeenTokens::sign_codes))]
fn step_of(sign: CSign) -> Option<Step>
    ensures { option_map seen_step result ≡ lookup (sign_codes sign) reader.steps }
{
    match sign {
        CSign::Increment => Some(Step::Upward),
        CSign::Decrement => Some(Step::Downward),
        _ => None,
    }
}

/// What is added to, `+=` and what is added.
#[tactic(auto, unfolding(c_statement_readers::specs::PartReader::added, c_lexer::specs::SeenTokens::sign_codes))]
fn added<'a>(
    alloc: Global,
    scope: &CScope,
    tokens: &'a [PlacedCToken],
    count: usize,
) -> Result<(CNext, &'a [PlacedCToken]), Failure<'a>>
    ensures { Gives (λ p. (p.0, shown p.1.now)) result (reader.added (scope_of scope.now) count (shown tokens.now)) }
{
    let (target, rest) = expression_within(alloc, scope, tokens, 7, count)?;
    let rest = a_sign(CSign::AddAssign, rest)?;
    let (value, rest) = expression_within(alloc, scope, rest, 0, count)?;
    Ok((CNext::Add(target, value), rest))
}

/// Behind `++` or `--`: what is counted.
#[tactic(auto, unfolding(crate::specs::Parts::seen_step, c_statement_readers::specs::PartReader::turn_by))]
fn stepped<'a>(
    alloc: Global,
    scope: &CScope,
    step: Step,
    tokens: &'a [PlacedCToken],
    count: usize,
) -> Result<(CNext, &'a [PlacedCToken]), Failure<'a>>
    ensures { Gives (λ p. (p.0, shown p.1.now)) result (reader.turn_by (scope_of scope.now) count [] (shown tokens.now) (Some (seen_step step))) }
{
    let (target, rest) = expression_within(alloc, scope, tokens, 7, count)?;
    match step {
        Step::Upward => Ok((CNext::Up(target), rest)),
        Step::Downward => Ok((CNext::Down(target), rest)),
    }
}

/// What a `for` does after each turn, and the tokens behind it.
#[tactic(auto, unfolding(c_expression_reader::specs::Readings::shown, c_lexer::specs::SeenTokens::seen, c_statement_readers::specs::PartReader::turn, c_statement_readers::specs::PartReader::turn_by))]
fn turn<'a>(
    alloc: Global,
    scope: &CScope,
    tokens: &'a [PlacedCToken],
    count: usize,
) -> Result<(CNext, &'a [PlacedCToken]), Failure<'a>>
    ensures { Gives (λ p. (p.0, shown p.1.now)) result (reader.turn (scope_of scope.now) count (shown tokens.now)) }
{
    match tokens {
        [
            PlacedCToken {
                token: CToken::Sign(sign),
                ..
            },
            rest @ ..,
        ] => match step_of(*sign) {
            Some(step) => stepped(alloc, scope, step, rest, count),
            None => added(alloc, scope, tokens, count),
        },
        _ => added(alloc, scope, tokens, count),
    }
}

/// An expression at a place and a sign behind it, and the tokens behind that.
#[tactic(auto, unfolding(crate::specs::Pieces::value_and))]
fn value_and<'a>(
    alloc: Global,
    scope: &CScope,
    place: u8,
    sign: CSign,
    tokens: &'a [PlacedCToken],
    count: usize,
) -> Result<(CExpr, &'a [PlacedCToken]), Failure<'a>>
    requires { place ≤ 9 }
    ensures { Gives (λ p. (p.0, shown p.1.now)) result (value_and (scope_of scope.now) count place (sign_codes sign) (shown tokens.now)) }
{
    let (value, rest) = expression_within(alloc, scope, tokens, place, count)?;
    let rest = a_sign(sign, rest)?;
    Ok((value, rest))
}

/// What a `for` does after each turn and the closing parenthesis, and the tokens behind it.
#[tactic(auto, unfolding(crate::specs::Pieces::turn_and, c_lexer::specs::SeenTokens::sign_codes))]
fn turn_and<'a>(
    alloc: Global,
    scope: &CScope,
    tokens: &'a [PlacedCToken],
    count: usize,
) -> Result<(CNext, &'a [PlacedCToken]), Failure<'a>>
    ensures { Gives (λ p. (p.0, shown p.1.now)) result (turn_and (scope_of scope.now) count (shown tokens.now)) }
{
    let (turn, rest) = turn(alloc, scope, tokens, count)?;
    let rest = a_sign(CSign::CloseParenthesis, rest)?;
    Ok((turn, rest))
}

/// What a `for` assigns to, and what that is first, up to the first semicolon.
#[tactic(auto, unfolding(crate::specs::Pieces::for_start, c_lexer::specs::SeenTokens::sign_codes))]
fn for_start<'a>(
    alloc: Global,
    scope: &CScope,
    tokens: &'a [PlacedCToken],
    count: usize,
) -> Result<((CExpr, CExpr), &'a [PlacedCToken]), Failure<'a>>
    ensures { Gives (λ p. (p.0, shown p.1.now)) result (for_start (scope_of scope.now) count (shown tokens.now)) }
{
    let (target, rest) = value_and(alloc, scope, 7, CSign::Assign, tokens, count)?;
    let (first, rest) = value_and(alloc, scope, 0, CSign::Semicolon, rest, count)?;
    Ok(((target, first), rest))
}

/// The test of a `for`, and what is done after each turn, up to the closing parenthesis.
#[tactic(auto, unfolding(crate::specs::Pieces::for_tests, c_lexer::specs::SeenTokens::sign_codes))]
fn for_tests<'a>(
    alloc: Global,
    scope: &CScope,
    tokens: &'a [PlacedCToken],
    count: usize,
) -> Result<((CExpr, CNext), &'a [PlacedCToken]), Failure<'a>>
    ensures { Gives (λ p. (p.0, shown p.1.now)) result (for_tests (scope_of scope.now) count (shown tokens.now)) }
{
    let (test, rest) = value_and(alloc, scope, 0, CSign::Semicolon, tokens, count)?;
    let (turn, rest) = turn_and(alloc, scope, rest, count)?;
    Ok(((test, turn), rest))
}

/// The head of a `for` behind the word, up to its block.
#[tactic(auto, using(crate::proofs::PieceSteps::heads_by_pieces), unfolding(c_lexer::specs::SeenTokens::sign_codes))]
pub(crate) fn for_head<'a>(
    alloc: Global,
    scope: &CScope,
    tokens: &'a [PlacedCToken],
    count: usize,
) -> Result<(ForHead, &'a [PlacedCToken]), Failure<'a>>
    ensures { Gives (λ p. (seen_head p.0, shown p.1.now)) result (reader.for_head (scope_of scope.now) count (shown tokens.now)) }
{
    let rest = a_sign(CSign::OpenParenthesis, tokens)?;
    let ((target, first), rest) = for_start(alloc, scope, rest, count)?;
    let ((test, turn), rest) = for_tests(alloc, scope, rest, count)?;
    let head = ForHead {
        target,
        first,
        test,
        turn,
    };
    Ok((head, rest))
}
