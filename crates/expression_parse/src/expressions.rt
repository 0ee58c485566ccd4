//! Expressions and places. Section 6 of the standard, ANSI X3.9-1978.

ghost use Rattle.std.specs.Prelude.{◌≡◌, [], ◌∷◌, IfOk};
ghost use Rattle.f_tree.specs.declared.expressions.Expr as tree;
ghost use Rattle.grammar_laws.specs.ExpressionReading as reading;
ghost use Rattle.fortran_grammar.specs.ExpressionSpelling.{SpellsExpression, SpellsPlace};
ghost use Rattle.fortran_lexemes.specs.PiecesOfText.{codes_of};
ghost use Rattle.stmt_lex.specs.SeenTokens.{seen, spanned};
ghost use Rattle.expression_parse.specs.Readings.{alone, all_of, Gives, IsExact};

use super::failure::Failure;
use super::marks::{
    behind_close, behind_colon, behind_comma, behind_empty, behind_open, operator_at, right_level,
};
use super::texts::{constant_text, name_text};
use f_tree::{BinaryOp, Expr};
use fortran_lexemes::Sign;
use fortran_text::Character;
use plain_data::{Boxed, Items};
use std::alloc::{AllocError, Global};
use stmt_lex::{Span, Token};

/// The greatest integer. Section 4.3.
const GREATEST: u32 = 2_147_483_647;

/// The expression that the tokens spell, all of them. Section 6.
///
/// # Errors
///
/// A fault of syntax where they spell none, or want of memory.
#[tactic(auto, using(crate::proofs::WholeReadings::whole_expression_exact))]
pub fn parse_expression(
    alloc: Global,
    text: &[Character],
    tokens: &[Token],
) -> Result<Expr, Failure>
    ensures { IsExact (λ found. SpellsExpression found (seen text.now tokens.now) []) result }
{
    whole_expression(alloc, text, tokens)
}

/// The place that the tokens spell, all of them: a variable, an array, an element or a substring. Sections 5.3 and 5.7.
///
/// # Errors
///
/// A fault of syntax where they spell none, or want of memory.
#[tactic(auto, using(crate::proofs::WholeReadings::whole_place_exact))]
pub fn parse_place(alloc: Global, text: &[Character], tokens: &[Token]) -> Result<Expr, Failure>
    ensures { IsExact (λ found. SpellsPlace found (seen text.now tokens.now) []) result }
{
    whole_place(alloc, text, tokens)
}

/// The expression that stands first in tokens, where no others stand behind it.
fn whole_expression(alloc: Global, text: &[Character], tokens: &[Token]) -> Result<Expr, Failure>
    ensures { Gives (λ found. found) result (all_of (reading.read_expression (seen text.now tokens.now))) }
{
    let (found, rest) = read_expression(alloc, text, tokens)?;
    all_read(text, found, rest)
}

/// The place that stands first in tokens, where no others stand behind it.
fn whole_place(alloc: Global, text: &[Character], tokens: &[Token]) -> Result<Expr, Failure>
    ensures { Gives (λ found. found) result (all_of (reading.read_place (seen text.now tokens.now))) }
{
    let (found, rest) = read_place(alloc, text, tokens)?;
    all_read(text, found, rest)
}

/// What was read, where no tokens are left.
#[tactic(auto, using(crate::proofs::ReadingSteps::left_over))]
fn all_read<T: Drop>(text: &[Character], found: T, rest: &[Token]) -> Result<T, Failure>
    ensures { Gives (λ found. found) result (alone (found, seen text.now rest.now)) }
{
    match rest {
        [] => Ok(found),
        _ => Err(Failure::Syntax),
    }
}

/// The expression that stands first in tokens, and the tokens behind it.
///
/// # Errors
///
/// A fault of syntax where none stands there, or want of memory.
#[tactic(auto, using(crate::proofs::ReadingSteps::seen_lengths), unfolding(grammar_laws::specs::ExpressionReading::read_expression))]
pub fn read_expression<'a>(
    alloc: Global,
    text: &[Character],
    tokens: &'a [Token],
) -> Result<(Expr, &'a [Token]), Failure>
    ensures { Gives (λ p. (p.0, seen text.now p.1.now)) result (reading.read_expression (seen text.now tokens.now)) }
{
    read(alloc, text, tokens, 1, tokens.len() + 1)
}

/// The place that stands first in tokens, and the tokens behind it.
///
/// # Errors
///
/// A fault of syntax where none stands there, or want of memory.
#[tactic(auto, using(crate::proofs::ReadingSteps::seen_lengths), unfolding(grammar_laws::specs::ExpressionReading::read_place))]
pub fn read_place<'a>(
    alloc: Global,
    text: &[Character],
    tokens: &'a [Token],
) -> Result<(Expr, &'a [Token]), Failure>
    ensures { Gives (λ p. (p.0, seen text.now p.1.now)) result (reading.read_place (seen text.now tokens.now)) }
{
    place(alloc, text, tokens, tokens.len())
}

/// A name and what belongs to it, where a place is wanted.
#[tactic(auto, unfolding(grammar_laws::specs::ExpressionReading::place, stmt_lex::specs::SeenTokens::seen, stmt_lex::specs::SeenTokens::lexeme_of))]
fn place<'a>(
    alloc: Global,
    text: &[Character],
    tokens: &'a [Token],
    fuel: usize,
) -> Result<(Expr, &'a [Token]), Failure>
    ensures { Gives (λ p. (p.0, seen text.now p.1.now)) result (reading.place (reading.read fuel) (reading.arguments fuel) (seen text.now tokens.now)) }
{
    match tokens {
        [Token::Name(name), rest @ ..] => named(alloc, text, *name, rest, fuel),
        _ => Err(Failure::Syntax),
    }
}

/// An expression of a level or a higher one.
#[cycle(expression)]
#[tactic(auto, using(crate::proofs::ReadingSteps::reading_steps))]
fn read<'a>(
    alloc: Global,
    text: &[Character],
    tokens: &'a [Token],
    level: u8,
    fuel: usize,
) -> Result<(Expr, &'a [Token]), Failure>
    ensures { Gives (λ p. (p.0, seen text.now p.1.now)) result (reading.read fuel level (seen text.now tokens.now)) }
{
    if fuel == 0 {
        return Err(Failure::Syntax);
    }
    let (first, rest) = operand(alloc, text, tokens, level, fuel - 1)?;
    onwards(alloc, text, first, rest, level, fuel - 1)
}

/// What goes on behind an operand.
#[cycle(expression)]
#[tactic(auto, using(crate::proofs::ReadingSteps::reading_steps), unfolding(grammar_laws::specs::ExpressionReading::onward))]
fn onwards<'a>(
    alloc: Global,
    text: &[Character],
    first: Expr,
    tokens: &'a [Token],
    level: u8,
    fuel: usize,
) -> Result<(Expr, &'a [Token]), Failure>
    ensures { Gives (λ p. (p.0, seen text.now p.1.now)) result (reading.onwards fuel level first (seen text.now tokens.now)) }
{
    if fuel == 0 {
        return Err(Failure::Syntax);
    }
    match operator_at(text, level, tokens) {
        Some((op, rest)) => joined(alloc, text, first, op, rest, level, fuel - 1),
        None => Ok((first, tokens)),
    }
}

/// An operand behind an operator, and what goes on behind it.
#[cycle(expression)]
#[tactic(auto, unfolding(grammar_laws::specs::ExpressionReading::joined))]
fn joined<'a>(
    alloc: Global,
    text: &[Character],
    first: Expr,
    op: BinaryOp,
    tokens: &'a [Token],
    level: u8,
    fuel: usize,
) -> Result<(Expr, &'a [Token]), Failure>
    ensures { Gives (λ p. (p.0, seen text.now p.1.now)) result (reading.joined (reading.read fuel) (reading.onwards fuel level) first op (seen text.now tokens.now)) }
{
    let (second, rest) = read(alloc, text, tokens, right_level(op), fuel)?;
    let made = between(alloc, op, first, second)?;
    onwards(alloc, text, made, rest, level, fuel)
}

/// Two operands with an operator between them.
fn between(alloc: Global, op: BinaryOp, first: Expr, second: Expr) -> Result<Expr, AllocError>
    ensures { IfOk result (λ made. made ≡ tree.Binary op first second) }
{
    let first = Boxed::new(alloc, first)?;
    let second = Boxed::new(alloc, second)?;
    Ok(Expr::Binary(op, first, second))
}

/// The first operand of an expression of a level.
#[cycle(expression)]
#[tactic(auto, unfolding(grammar_laws::specs::ExpressionReading::operand, stmt_lex::specs::SeenTokens::seen, stmt_lex::specs::SeenTokens::lexeme_of))]
fn operand<'a>(
    alloc: Global,
    text: &[Character],
    tokens: &'a [Token],
    level: u8,
    fuel: usize,
) -> Result<(Expr, &'a [Token]), Failure>
    ensures { Gives (λ p. (p.0, seen text.now p.1.now)) result (reading.operand (reading.read fuel) (reading.arguments fuel) level (seen text.now tokens.now)) }
{
    match tokens {
        [Token::Infix(op), rest @ ..] => if level <= 7 {
            signed(alloc, text, *op, rest, fuel)
        } else {
            Err(Failure::Syntax)
        },
        [Token::Negation, rest @ ..] => if level <= 4 {
            negated(alloc, text, rest, fuel)
        } else {
            Err(Failure::Syntax)
        },
        _ => primary(alloc, text, tokens, fuel),
    }
}

/// A sign and what it stands before.
#[cycle(expression)]
#[tactic(auto, unfolding(grammar_laws::specs::ExpressionReading::signed))]
fn signed<'a>(
    alloc: Global,
    text: &[Character],
    op: BinaryOp,
    tokens: &'a [Token],
    fuel: usize,
) -> Result<(Expr, &'a [Token]), Failure>
    ensures { Gives (λ p. (p.0, seen text.now p.1.now)) result (reading.signed (reading.read fuel) op (seen text.now tokens.now)) }
{
    match op {
        BinaryOp::Minus => {
            let (found, rest) = read(alloc, text, tokens, 8, fuel)?;
            Ok((Expr::Minus(Boxed::new(alloc, found)?), rest))
        }
        BinaryOp::Plus => {
            let (found, rest) = read(alloc, text, tokens, 8, fuel)?;
            Ok((Expr::Plus(Boxed::new(alloc, found)?), rest))
        }
        _ => Err(Failure::Syntax),
    }
}

/// What stands behind `.NOT.`
#[cycle(expression)]
#[tactic(auto, unfolding(grammar_laws::specs::ExpressionReading::negated))]
fn negated<'a>(
    alloc: Global,
    text: &[Character],
    tokens: &'a [Token],
    fuel: usize,
) -> Result<(Expr, &'a [Token]), Failure>
    ensures { Gives (λ p. (p.0, seen text.now p.1.now)) result (reading.negated (reading.read fuel) (seen text.now tokens.now)) }
{
    let (found, rest) = read(alloc, text, tokens, 5, fuel)?;
    Ok((Expr::Not(Boxed::new(alloc, found)?), rest))
}

/// A constant, a name and what belongs to it, or an expression in parentheses.
#[cycle(expression)]
#[tactic(auto, unfolding(grammar_laws::specs::ExpressionReading::primary, stmt_lex::specs::SeenTokens::seen, stmt_lex::specs::SeenTokens::lexeme_of))]
fn primary<'a>(
    alloc: Global,
    text: &[Character],
    tokens: &'a [Token],
    fuel: usize,
) -> Result<(Expr, &'a [Token]), Failure>
    ensures { Gives (λ p. (p.0, seen text.now p.1.now)) result (reading.primary (reading.read fuel) (reading.arguments fuel) (seen text.now tokens.now)) }
{
    match tokens {
        [Token::Name(name), rest @ ..] => called(alloc, text, *name, rest, fuel),
        [Token::Number(_, value), rest @ ..] => Ok((number(*value)?, rest)),
        [Token::Quoted(span), rest @ ..] => Ok((
            Expr::Text(constant_text(alloc, text, *span)?),
            rest,
        )),
        [Token::Truth(value), rest @ ..] => Ok((Expr::Logical(*value), rest)),
        [Token::Mark(Sign::Open), rest @ ..] => parenthesised(alloc, text, rest, fuel),
        _ => Err(Failure::Syntax),
    }
}

/// An unsigned integer constant. Section 4.3.
#[tactic(auto, unfolding(grammar_laws::specs::ExpressionReading::number))]
fn number(value: u32) -> Result<Expr, Failure>
    ensures { Gives (λ made. made) result (reading.number value) }
{
    if value > GREATEST {
        return Err(Failure::Syntax);
    }
    Ok(Expr::Int(value as i32))
}

/// A name.
fn name(alloc: Global, text: &[Character], span: Span) -> Result<Expr, AllocError>
    ensures { IfOk result (λ made. made ≡ tree.Name (codes_of (spanned text.now span))) }
{
    Ok(Expr::Name(name_text(alloc, text, span)?))
}

/// A name with arguments.
fn apply(
    alloc: Global,
    text: &[Character],
    span: Span,
    arguments: Items<Expr>,
) -> Result<Expr, AllocError>
    ensures { IfOk result (λ made. made ≡ tree.Apply (codes_of (spanned text.now span)) arguments) }
{
    Ok(Expr::Apply(name_text(alloc, text, span)?, arguments))
}

/// An expression in parentheses, behind the first of them.
#[cycle(expression)]
#[tactic(auto, unfolding(grammar_laws::specs::ExpressionReading::parenthesised))]
fn parenthesised<'a>(
    alloc: Global,
    text: &[Character],
    tokens: &'a [Token],
    fuel: usize,
) -> Result<(Expr, &'a [Token]), Failure>
    ensures { Gives (λ p. (p.0, seen text.now p.1.now)) result (reading.parenthesised (reading.read fuel) (seen text.now tokens.now)) }
{
    let (found, rest) = last_place(alloc, text, tokens, fuel)?;
    Ok((Expr::Paren(Boxed::new(alloc, found)?), rest))
}

/// An expression and `)`.
#[cycle(expression)]
#[tactic(auto, unfolding(grammar_laws::specs::ExpressionReading::last_place))]
fn last_place<'a>(
    alloc: Global,
    text: &[Character],
    tokens: &'a [Token],
    fuel: usize,
) -> Result<(Expr, &'a [Token]), Failure>
    ensures { Gives (λ p. (p.0, seen text.now p.1.now)) result (reading.last_place (reading.read fuel) (seen text.now tokens.now)) }
{
    let (found, rest) = read(alloc, text, tokens, 1, fuel)?;
    match behind_close(text, rest) {
        Some(rest) => Ok((found, rest)),
        None => Err(Failure::Syntax),
    }
}

/// A name and what stands behind it, where a primary is wanted.
#[cycle(expression)]
#[tactic(auto, unfolding(grammar_laws::specs::ExpressionReading::called, grammar_laws::specs::ExpressionReading::called_by))]
fn called<'a>(
    alloc: Global,
    text: &[Character],
    name: Span,
    tokens: &'a [Token],
    fuel: usize,
) -> Result<(Expr, &'a [Token]), Failure>
    ensures { Gives (λ p. (p.0, seen text.now p.1.now)) result (reading.called (reading.read fuel) (reading.arguments fuel) (codes_of (spanned text.now name)) (seen text.now tokens.now)) }
{
    match behind_empty(text, tokens) {
        Some(rest) => Ok((apply(alloc, text, name, Items::new(alloc))?, rest)),
        None => named(alloc, text, name, tokens, fuel),
    }
}

/// A name and what stands behind it, where a place is wanted.
#[cycle(expression)]
#[tactic(auto, unfolding(grammar_laws::specs::ExpressionReading::named, grammar_laws::specs::ExpressionReading::named_by))]
fn named<'a>(
    alloc: Global,
    text: &[Character],
    span: Span,
    tokens: &'a [Token],
    fuel: usize,
) -> Result<(Expr, &'a [Token]), Failure>
    ensures { Gives (λ p. (p.0, seen text.now p.1.now)) result (reading.named (reading.read fuel) (reading.arguments fuel) (codes_of (spanned text.now span)) (seen text.now tokens.now)) }
{
    match behind_open(text, tokens) {
        Some(rest) => subscripted(alloc, text, span, rest, fuel),
        None => Ok((name(alloc, text, span)?, tokens)),
    }
}

/// A name and what stands behind its parenthesis.
#[cycle(expression)]
#[tactic(auto, unfolding(grammar_laws::specs::ExpressionReading::subscripted, grammar_laws::specs::ExpressionReading::subscripted_by))]
fn subscripted<'a>(
    alloc: Global,
    text: &[Character],
    span: Span,
    tokens: &'a [Token],
    fuel: usize,
) -> Result<(Expr, &'a [Token]), Failure>
    ensures { Gives (λ p. (p.0, seen text.now p.1.now)) result (reading.subscripted (reading.read fuel) (reading.arguments fuel) (codes_of (spanned text.now span)) (seen text.now tokens.now)) }
{
    match behind_colon(text, tokens) {
        Some(rest) => part(alloc, text, name(alloc, text, span)?, None, rest, fuel),
        None => {
            let (first, rest) = read(alloc, text, tokens, 1, fuel)?;
            applied(alloc, text, span, first, rest, fuel)
        }
    }
}

/// A name in whose parentheses an expression was read: a substring where a colon follows, else an element.
#[cycle(expression)]
#[tactic(auto, unfolding(grammar_laws::specs::ExpressionReading::applied, grammar_laws::specs::ExpressionReading::applied_by))]
fn applied<'a>(
    alloc: Global,
    text: &[Character],
    span: Span,
    first: Expr,
    tokens: &'a [Token],
    fuel: usize,
) -> Result<(Expr, &'a [Token]), Failure>
    ensures { Gives (λ p. (p.0, seen text.now p.1.now)) result (reading.applied (reading.read fuel) (reading.arguments fuel) (codes_of (spanned text.now span)) first (seen text.now tokens.now)) }
{
    match behind_colon(text, tokens) {
        Some(rest) => part(
            alloc,
            text,
            name(alloc, text, span)?,
            Some(first),
            rest,
            fuel,
        ),
        None => {
            let (found, rest) = arguments(alloc, text, one(alloc, first)?, tokens, fuel)?;
            element(alloc, text, apply(alloc, text, span, found)?, rest, fuel)
        }
    }
}

/// A list of one expression.
fn one(alloc: Global, first: Expr) -> Result<Items<Expr>, AllocError>
    ensures { IfOk result (λ found. found ≡ first ∷ []) }
{
    let mut found = Items::new(alloc);
    found.push(first)?;
    Ok(found)
}

/// An element, or a substring of it where a parenthesis follows.
#[cycle(expression)]
#[tactic(auto, unfolding(grammar_laws::specs::ExpressionReading::element, grammar_laws::specs::ExpressionReading::element_by))]
fn element<'a>(
    alloc: Global,
    text: &[Character],
    base: Expr,
    tokens: &'a [Token],
    fuel: usize,
) -> Result<(Expr, &'a [Token]), Failure>
    ensures { Gives (λ p. (p.0, seen text.now p.1.now)) result (reading.element (reading.read fuel) base (seen text.now tokens.now)) }
{
    match behind_open(text, tokens) {
        Some(rest) => part_of(alloc, text, base, rest, fuel),
        None => Ok((base, tokens)),
    }
}

/// Behind the parenthesis of a substring of an element.
#[cycle(expression)]
#[tactic(auto, unfolding(grammar_laws::specs::ExpressionReading::part_of, grammar_laws::specs::ExpressionReading::part_of_by))]
fn part_of<'a>(
    alloc: Global,
    text: &[Character],
    base: Expr,
    tokens: &'a [Token],
    fuel: usize,
) -> Result<(Expr, &'a [Token]), Failure>
    ensures { Gives (λ p. (p.0, seen text.now p.1.now)) result (reading.part_of (reading.read fuel) base (seen text.now tokens.now)) }
{
    match behind_colon(text, tokens) {
        Some(rest) => part(alloc, text, base, None, rest, fuel),
        None => part_from(alloc, text, base, tokens, fuel),
    }
}

/// The first place of a substring and `:`, and what stands behind them.
#[cycle(expression)]
#[tactic(auto, unfolding(grammar_laws::specs::ExpressionReading::part_from))]
fn part_from<'a>(
    alloc: Global,
    text: &[Character],
    base: Expr,
    tokens: &'a [Token],
    fuel: usize,
) -> Result<(Expr, &'a [Token]), Failure>
    ensures { Gives (λ p. (p.0, seen text.now p.1.now)) result (reading.part_from (reading.read fuel) base (seen text.now tokens.now)) }
{
    let (first, rest) = read(alloc, text, tokens, 1, fuel)?;
    match behind_colon(text, rest) {
        Some(rest) => part(alloc, text, base, Some(first), rest, fuel),
        None => Err(Failure::Syntax),
    }
}

/// Behind the colon of a substring. Section 5.7.
#[cycle(expression)]
#[tactic(auto, unfolding(grammar_laws::specs::ExpressionReading::part, grammar_laws::specs::ExpressionReading::part_by))]
fn part<'a>(
    alloc: Global,
    text: &[Character],
    base: Expr,
    first: Option<Expr>,
    tokens: &'a [Token],
    fuel: usize,
) -> Result<(Expr, &'a [Token]), Failure>
    ensures { Gives (λ p. (p.0, seen text.now p.1.now)) result (reading.part (reading.read fuel) base first (seen text.now tokens.now)) }
{
    match behind_close(text, tokens) {
        Some(rest) => Ok((substring(alloc, base, first, None)?, rest)),
        None => {
            let (last, rest) = last_place(alloc, text, tokens, fuel)?;
            Ok((substring(alloc, base, first, Some(last))?, rest))
        }
    }
}

/// A substring.
fn substring(
    alloc: Global,
    base: Expr,
    first: Option<Expr>,
    last: Option<Expr>,
) -> Result<Expr, AllocError>
    ensures { IfOk result (λ made. made ≡ tree.Part base first last) }
{
    let base = Boxed::new(alloc, base)?;
    let first = boxed(alloc, first)?;
    let last = boxed(alloc, last)?;
    Ok(Expr::Part(base, first, last))
}

/// An expression that may be left out.
fn boxed(alloc: Global, value: Option<Expr>) -> Result<Option<Boxed<Expr>>, AllocError>
    ensures { IfOk result (λ made. made ≡ value) }
{
    match value {
        Some(value) => Ok(Some(Boxed::new(alloc, value)?)),
        None => Ok(None),
    }
}

/// What goes on behind arguments, up to the closing parenthesis.
#[cycle(expression)]
#[tactic(auto, using(crate::proofs::ReadingSteps::reading_steps), unfolding(grammar_laws::specs::ExpressionReading::arguments_by))]
fn arguments<'a>(
    alloc: Global,
    text: &[Character],
    found: Items<Expr>,
    tokens: &'a [Token],
    fuel: usize,
) -> Result<(Items<Expr>, &'a [Token]), Failure>
    ensures { Gives (λ p. (p.0, seen text.now p.1.now)) result (reading.arguments fuel found (seen text.now tokens.now)) }
{
    if fuel == 0 {
        return Err(Failure::Syntax);
    }
    match behind_close(text, tokens) {
        Some(rest) => Ok((found, rest)),
        None => further(alloc, text, found, tokens, fuel - 1),
    }
}

/// A further argument behind a comma, and what goes on behind it.
#[cycle(expression)]
#[tactic(auto, unfolding(grammar_laws::specs::ExpressionReading::further))]
fn further<'a>(
    alloc: Global,
    text: &[Character],
    mut found: Items<Expr>,
    tokens: &'a [Token],
    fuel: usize,
) -> Result<(Items<Expr>, &'a [Token]), Failure>
    ensures { Gives (λ p. (p.0, seen text.now p.1.now)) result (reading.further (reading.read fuel) (reading.arguments fuel) found (seen text.now tokens.now)) }
{
    let Some(rest) = behind_comma(text, tokens) else {
        return Err(Failure::Syntax);
    };
    let (next, rest) = read(alloc, text, rest, 1, fuel)?;
    found.push(next)?;
    arguments(alloc, text, found, rest, fuel)
}
