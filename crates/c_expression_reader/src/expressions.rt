//! Expressions, and what goes on behind their operands (C89, 3.3).

ghost use Rattle.std.specs.Prelude.{◌≡◌, [], Some};
ghost use Rattle.c_readers.specs.ExpressionReader as reader;
ghost use Rattle.c_scope.specs.ScopeSeen.{scope_of};
ghost use Rattle.c_expression_reader.specs.Readings.{shown, Gives};
ghost use Rattle.c_expression_reader.specs.Leads.{seen_operator};

use crate::failure::Failure;
use crate::leads::Operand;
use crate::nodes::{binary, choice, element, field};
use crate::operands::operand;
use crate::operators::{Operator, infix_level, operator_of};
use crate::wanted::{a_name, a_sign};
use c_lexer::{CSign, CToken, PlacedCToken};
use c_scope::CScope;
use c_tree::expression::{BinaryOp, CExpr};
use std::alloc::Global;

/// An expression at a place, and the tokens behind it. The place is a level of the grammar, from 0 for all expressions on: the expression is
/// one of that level or a closer one. At most so many constructs are open at once, and operators behind one another count too.
///
/// # Errors
///
/// The tokens from the first one on with which nothing goes on, or want of memory.
#[cycle(expression)]
#[tactic(auto, using(crate::proofs::ReadingSteps::expression_steps))]
pub fn read_expression<'a>(
    alloc: Global,
    scope: &CScope,
    tokens: &'a [PlacedCToken],
    place: u8,
    nests: usize,
) -> Result<(CExpr, &'a [PlacedCToken]), Failure<'a>>
    ensures { Gives (λ p. (p.0, shown p.1.now)) result (reader.expression (scope_of scope.now) nests place (shown tokens.now)) }
{
    if nests == 0 {
        return Err(Failure::Memory);
    }
    let (first, rest) = operand(alloc, scope, tokens, place, nests - 1)?;
    let Operand { level, tree } = first;
    expression_behind(alloc, scope, tree, rest, place, level, nests - 1)
}

/// What goes on behind an operand of a level, at a place.
#[cycle(expression)]
#[tactic(auto, using(crate::proofs::ReadingSteps::expression_steps))]
fn expression_behind<'a>(
    alloc: Global,
    scope: &CScope,
    first: CExpr,
    tokens: &'a [PlacedCToken],
    place: u8,
    level: u8,
    nests: usize,
) -> Result<(CExpr, &'a [PlacedCToken]), Failure<'a>>
    ensures { Gives (λ p. (p.0, shown p.1.now)) result (reader.expression_behind (scope_of scope.now) nests place level first (shown tokens.now)) }
{
    if nests == 0 {
        return Err(Failure::Memory);
    }
    onward(alloc, scope, first, tokens, place, level, nests - 1)
}

/// What goes on behind an operand, where an operator follows that the place takes.
#[cycle(expression)]
#[tactic(auto, unfolding(crate::specs::Readings::shown, c_lexer::specs::SeenTokens::seen, c_readers::specs::ExpressionReader::onward, c_readers::specs::ExpressionReader::by_operator))]
fn onward<'a>(
    alloc: Global,
    scope: &CScope,
    first: CExpr,
    tokens: &'a [PlacedCToken],
    place: u8,
    level: u8,
    nests: usize,
) -> Result<(CExpr, &'a [PlacedCToken]), Failure<'a>>
    ensures { Gives (λ p. (p.0, shown p.1.now)) result (reader.onward (reader.expression (scope_of scope.now) nests) (reader.expression_behind (scope_of scope.now) nests place) place level first (shown tokens.now)) }
{
    match tokens {
        [
            PlacedCToken {
                token: CToken::Sign(sign),
                ..
            },
            rest @ ..,
        ] => match operator_of(place, level, *sign) {
            Some(operator) => by_operator(alloc, scope, first, operator, rest, place, nests),
            None => Ok((first, tokens)),
        },
        _ => Ok((first, tokens)),
    }
}

/// What goes on behind an operator.
#[cycle(expression)]
#[tactic(auto, unfolding(c_readers::specs::ExpressionReader::by_operator, crate::specs::Leads::seen_operator))]
fn by_operator<'a>(
    alloc: Global,
    scope: &CScope,
    first: CExpr,
    operator: Operator,
    tokens: &'a [PlacedCToken],
    place: u8,
    nests: usize,
) -> Result<(CExpr, &'a [PlacedCToken]), Failure<'a>>
    ensures { Gives (λ p. (p.0, shown p.1.now)) result (reader.by_operator (reader.expression (scope_of scope.now) nests) (reader.expression_behind (scope_of scope.now) nests place) first [] (shown tokens.now) (Some (seen_operator operator))) }
{
    match operator {
        Operator::Infix(op) => between(alloc, scope, first, op, tokens, place, nests),
        Operator::Subscript => indexed(alloc, scope, first, tokens, place, nests),
        Operator::Member => a_field(alloc, scope, first, tokens, place, nests),
        Operator::Choice => chosen(alloc, scope, first, tokens, place, nests),
    }
}

/// A right operand, and what goes on behind it (C89, 3.3.5 to 3.3.14).
#[cycle(expression)]
#[tactic(auto, unfolding(c_readers::specs::ExpressionReader::between))]
fn between<'a>(
    alloc: Global,
    scope: &CScope,
    first: CExpr,
    op: BinaryOp,
    tokens: &'a [PlacedCToken],
    place: u8,
    nests: usize,
) -> Result<(CExpr, &'a [PlacedCToken]), Failure<'a>>
    ensures { Gives (λ p. (p.0, shown p.1.now)) result (reader.between (reader.expression (scope_of scope.now) nests) (reader.expression_behind (scope_of scope.now) nests place) first op (shown tokens.now)) }
{
    let level = infix_level(op);
    let (second, rest) = read_expression(alloc, scope, tokens, level + 1, nests)?;
    let made = binary(alloc, op, first, second)?;
    expression_behind(alloc, scope, made, rest, place, level, nests)
}

/// An index, and what goes on behind it (C89, 3.3.2.1).
#[cycle(expression)]
#[tactic(auto, unfolding(c_readers::specs::ExpressionReader::indexed, c_lexer::specs::SeenTokens::sign_codes))]
fn indexed<'a>(
    alloc: Global,
    scope: &CScope,
    first: CExpr,
    tokens: &'a [PlacedCToken],
    place: u8,
    nests: usize,
) -> Result<(CExpr, &'a [PlacedCToken]), Failure<'a>>
    ensures { Gives (λ p. (p.0, shown p.1.now)) result (reader.indexed (reader.expression (scope_of scope.now) nests) (reader.expression_behind (scope_of scope.now) nests place) first (shown tokens.now)) }
{
    let (at, rest) = read_expression(alloc, scope, tokens, 0, nests)?;
    let rest = a_sign(CSign::CloseBracket, rest)?;
    let made = element(alloc, first, at)?;
    expression_behind(alloc, scope, made, rest, place, 8, nests)
}

/// The name of a field, and what goes on behind it (C89, 3.3.2.3).
#[cycle(expression)]
#[tactic(auto, unfolding(c_readers::specs::ExpressionReader::a_field))]
fn a_field<'a>(
    alloc: Global,
    scope: &CScope,
    first: CExpr,
    tokens: &'a [PlacedCToken],
    place: u8,
    nests: usize,
) -> Result<(CExpr, &'a [PlacedCToken]), Failure<'a>>
    ensures { Gives (λ p. (p.0, shown p.1.now)) result (reader.a_field (reader.expression_behind (scope_of scope.now) nests place) first (shown tokens.now)) }
{
    let (name, rest) = a_name(tokens)?;
    let made = field(alloc, first, name)?;
    expression_behind(alloc, scope, made, rest, place, 8, nests)
}

/// The arms of a choice, and what goes on behind them (C89, 3.3.15).
#[cycle(expression)]
#[tactic(auto, unfolding(c_readers::specs::ExpressionReader::chosen))]
fn chosen<'a>(
    alloc: Global,
    scope: &CScope,
    first: CExpr,
    tokens: &'a [PlacedCToken],
    place: u8,
    nests: usize,
) -> Result<(CExpr, &'a [PlacedCToken]), Failure<'a>>
    ensures { Gives (λ p. (p.0, shown p.1.now)) result (reader.chosen (reader.expression (scope_of scope.now) nests) (reader.expression_behind (scope_of scope.now) nests place) first (shown tokens.now)) }
{
    let (arm, rest) = read_expression(alloc, scope, tokens, 0, nests)?;
    otherwise(alloc, scope, first, arm, rest, place, nests)
}

/// The second arm of a choice, and what goes on behind it.
#[cycle(expression)]
#[tactic(auto, unfolding(c_readers::specs::ExpressionReader::otherwise, c_lexer::specs::SeenTokens::sign_codes))]
fn otherwise<'a>(
    alloc: Global,
    scope: &CScope,
    first: CExpr,
    arm: CExpr,
    tokens: &'a [PlacedCToken],
    place: u8,
    nests: usize,
) -> Result<(CExpr, &'a [PlacedCToken]), Failure<'a>>
    ensures { Gives (λ p. (p.0, shown p.1.now)) result (reader.otherwise (reader.expression (scope_of scope.now) nests) (reader.expression_behind (scope_of scope.now) nests place) first arm (shown tokens.now)) }
{
    let rest = a_sign(CSign::Colon, tokens)?;
    let (other, rest) = read_expression(alloc, scope, rest, 0, nests)?;
    let made = choice(alloc, first, arm, other)?;
    expression_behind(alloc, scope, made, rest, place, 0, nests)
}
