//! Statements that loop. Section 11.10 of the standard, ANSI X3.9-1978; MIL-STD-1753 for DO WHILE, and for DO without a label.

ghost use Rattle.std.specs.Prelude.{◌≡◌, Some, None};
ghost use Rattle.grammar_laws.specs.StatementReading as reading;
ghost use Rattle.grammar_laws.specs.ExpressionReading as expressions;
ghost use Rattle.grammar_laws.specs.FormReading as form;
ghost use Rattle.fortran_grammar.specs.Forms as forms;
ghost use Rattle.f_tree.specs.declared.statements.Body as body;
ghost use Rattle.stmt_lex.specs.SeenTokens.{seen};
ghost use Rattle.expression_parse.specs.Readings.{Gives};

use super::actions::{expression_behind_comma, test};
use expression_parse::{Failure, Wanted, label, name, read_expression, required};
use f_tree::{Body, Expr, LoopControl};
use fortran_text::Character;
use plain_data::Items;
use std::alloc::Global;
use stmt_lex::Token;

/// The step of a loop, if it has one.
#[tactic(auto, unfolding(grammar_laws::specs::FormReading::maybe, grammar_laws::specs::FormReading::maybe_read))]
fn step<'a>(
    alloc: Global,
    text: &[Character],
    tokens: &'a [Token],
) -> Result<(Option<Expr>, &'a [Token]), Failure>
    ensures { Gives (λ p. (p.0, seen text.now p.1.now)) result (form.maybe (form.after forms.Comma expressions.read_expression) (seen text.now tokens.now)) }
{
    match expression_behind_comma(alloc, text, tokens) {
        Ok((found, rest)) => Ok((Some(found), rest)),
        Err(Failure::Syntax) => Ok((None, tokens)),
        Err(Failure::NoMemory) => Err(Failure::NoMemory),
    }
}

/// The limit of a loop, and its step.
#[tactic(auto, unfolding(grammar_laws::specs::FormReading::meant, grammar_laws::specs::FormReading::both, grammar_laws::specs::FormReading::going_on, grammar_laws::specs::FormReading::paired))]
fn limit<'a>(
    alloc: Global,
    text: &[Character],
    tokens: &'a [Token],
) -> Result<((Expr, Option<Expr>), &'a [Token]), Failure>
    ensures { Gives (λ p. (p.0, seen text.now p.1.now)) result (form.both expressions.read_expression (form.maybe (form.after forms.Comma expressions.read_expression)) (seen text.now tokens.now)) }
{
    let (limit, rest) = read_expression(alloc, text, tokens)?;
    let (step, rest) = step(alloc, text, rest)?;
    Ok(((limit, step), rest))
}

/// A comma, the limit of a loop and its step.
#[tactic(auto, using(crate::proofs::ActionLemmas::piece_steps), unfolding(expression_parse::specs::WantedPieces::sort_of))]
fn limit_behind_comma<'a>(
    alloc: Global,
    text: &[Character],
    tokens: &'a [Token],
) -> Result<((Expr, Option<Expr>), &'a [Token]), Failure>
    ensures { Gives (λ p. (p.0, seen text.now p.1.now)) result (form.after forms.Comma (form.both expressions.read_expression (form.maybe (form.after forms.Comma expressions.read_expression))) (seen text.now tokens.now)) }
{
    let rest = required(text, tokens, Wanted::Comma)?;
    limit(alloc, text, rest)
}

/// The first value of a loop, its limit and its step.
#[tactic(auto, unfolding(grammar_laws::specs::FormReading::meant, grammar_laws::specs::FormReading::both, grammar_laws::specs::FormReading::going_on, grammar_laws::specs::FormReading::paired))]
fn values<'a>(
    alloc: Global,
    text: &[Character],
    tokens: &'a [Token],
) -> Result<((Expr, (Expr, Option<Expr>)), &'a [Token]), Failure>
    ensures { Gives (λ p. (p.0, seen text.now p.1.now)) result (form.both expressions.read_expression (form.after forms.Comma (form.both expressions.read_expression (form.maybe (form.after forms.Comma expressions.read_expression)))) (seen text.now tokens.now)) }
{
    let (first, rest) = read_expression(alloc, text, tokens)?;
    let (others, rest) = limit_behind_comma(alloc, text, rest)?;
    Ok(((first, others), rest))
}

/// `=` and the values of a loop.
#[tactic(auto, using(crate::proofs::ActionLemmas::piece_steps), unfolding(expression_parse::specs::WantedPieces::sort_of))]
fn values_behind_equals<'a>(
    alloc: Global,
    text: &[Character],
    tokens: &'a [Token],
) -> Result<((Expr, (Expr, Option<Expr>)), &'a [Token]), Failure>
    ensures { Gives (λ p. (p.0, seen text.now p.1.now)) result (form.after forms.Equals (form.both expressions.read_expression (form.after forms.Comma (form.both expressions.read_expression (form.maybe (form.after forms.Comma expressions.read_expression))))) (seen text.now tokens.now)) }
{
    let rest = required(text, tokens, Wanted::Equals)?;
    values(alloc, text, rest)
}

/// The variable of a loop with its first value, its limit and its step. Section 11.10.
#[tactic(auto, unfolding(grammar_laws::specs::FormReading::meant, grammar_laws::specs::FormReading::both, grammar_laws::specs::FormReading::going_on, grammar_laws::specs::FormReading::paired, fortran_grammar::specs::StatementForms::loop_of))]
fn loop_control<'a>(
    alloc: Global,
    text: &[Character],
    tokens: &'a [Token],
) -> Result<(LoopControl, &'a [Token]), Failure>
    ensures { Gives (λ p. (p.0, seen text.now p.1.now)) result (reading.loop_form (seen text.now tokens.now)) }
{
    let (variable, rest) = name(alloc, text, tokens)?;
    let ((first, (limit, step)), rest) = values_behind_equals(alloc, text, rest)?;
    Ok((
        LoopControl {
            variable,
            first,
            limit,
            step,
        },
        rest,
    ))
}

/// A comma and a loop.
#[tactic(auto, using(crate::proofs::ActionLemmas::piece_steps), unfolding(expression_parse::specs::WantedPieces::sort_of))]
fn loop_behind_comma<'a>(
    alloc: Global,
    text: &[Character],
    tokens: &'a [Token],
) -> Result<(LoopControl, &'a [Token]), Failure>
    ensures { Gives (λ p. (p.0, seen text.now p.1.now)) result (form.after forms.Comma reading.loop_form (seen text.now tokens.now)) }
{
    let rest = required(text, tokens, Wanted::Comma)?;
    loop_control(alloc, text, rest)
}

/// A loop, with a comma before it or without one.
#[tactic(auto, unfolding(grammar_laws::specs::FormReading::either, grammar_laws::specs::FormReading::otherwise, grammar_laws::specs::FormReading::with_comma))]
fn possible_loop<'a>(
    alloc: Global,
    text: &[Character],
    tokens: &'a [Token],
) -> Result<(LoopControl, &'a [Token]), Failure>
    ensures { Gives (λ p. (p.0, seen text.now p.1.now)) result (form.with_comma reading.loop_form (seen text.now tokens.now)) }
{
    match loop_behind_comma(alloc, text, tokens) {
        Ok((found, rest)) => Ok((found, rest)),
        Err(Failure::Syntax) => loop_control(alloc, text, tokens),
        Err(Failure::NoMemory) => Err(Failure::NoMemory),
    }
}

/// DO with the label of its last statement.
#[tactic(auto, unfolding(grammar_laws::specs::FormReading::meant, grammar_laws::specs::FormReading::both, grammar_laws::specs::FormReading::going_on, grammar_laws::specs::FormReading::paired))]
fn labelled_do<'a>(
    alloc: Global,
    text: &[Character],
    tokens: &'a [Token],
) -> Result<(Body, &'a [Token]), Failure>
    ensures { Gives (λ p. (p.0, seen text.now p.1.now)) result (form.meant (λ p. body.Do (Some p.0) p.1) (form.both form.a_label (form.with_comma reading.loop_form)) (seen text.now tokens.now)) }
{
    let (label, rest) = label(text, tokens)?;
    let (found, rest) = possible_loop(alloc, text, rest)?;
    Ok((Body::Do(Some(label), found), rest))
}

/// DO without a label. MIL-STD-1753.
#[tactic(auto, unfolding(grammar_laws::specs::FormReading::meant, grammar_laws::specs::FormReading::going_on))]
fn plain_do<'a>(
    alloc: Global,
    text: &[Character],
    tokens: &'a [Token],
) -> Result<(Body, &'a [Token]), Failure>
    ensures { Gives (λ p. (p.0, seen text.now p.1.now)) result (form.meant (body.Do None) reading.loop_form (seen text.now tokens.now)) }
{
    let (found, rest) = loop_control(alloc, text, tokens)?;
    Ok((Body::Do(None, found), rest))
}

/// What stands behind the word of DO. Section 11.10 and MIL-STD-1753.
#[tactic(auto, unfolding(grammar_laws::specs::FormReading::either, grammar_laws::specs::FormReading::otherwise))]
pub fn do_statement<'a>(
    alloc: Global,
    text: &[Character],
    tokens: &'a [Token],
) -> Result<(Body, &'a [Token]), Failure>
    ensures { Gives (λ p. (p.0, seen text.now p.1.now)) result (reading.do_form (seen text.now tokens.now)) }
{
    match labelled_do(alloc, text, tokens) {
        Ok((found, rest)) => Ok((found, rest)),
        Err(Failure::Syntax) => plain_do(alloc, text, tokens),
        Err(Failure::NoMemory) => Err(Failure::NoMemory),
    }
}

/// A comma and a condition.
#[tactic(auto, using(crate::proofs::ActionLemmas::piece_steps), unfolding(expression_parse::specs::WantedPieces::sort_of))]
fn test_behind_comma<'a>(
    alloc: Global,
    text: &[Character],
    tokens: &'a [Token],
) -> Result<(Expr, &'a [Token]), Failure>
    ensures { Gives (λ p. (p.0, seen text.now p.1.now)) result (form.after forms.Comma reading.test_form (seen text.now tokens.now)) }
{
    let rest = required(text, tokens, Wanted::Comma)?;
    test(alloc, text, rest)
}

/// A condition, with a comma before it or without one.
#[tactic(auto, unfolding(grammar_laws::specs::FormReading::either, grammar_laws::specs::FormReading::otherwise, grammar_laws::specs::FormReading::with_comma))]
fn possible_test<'a>(
    alloc: Global,
    text: &[Character],
    tokens: &'a [Token],
) -> Result<(Expr, &'a [Token]), Failure>
    ensures { Gives (λ p. (p.0, seen text.now p.1.now)) result (form.with_comma reading.test_form (seen text.now tokens.now)) }
{
    match test_behind_comma(alloc, text, tokens) {
        Ok((found, rest)) => Ok((found, rest)),
        Err(Failure::Syntax) => test(alloc, text, tokens),
        Err(Failure::NoMemory) => Err(Failure::NoMemory),
    }
}

/// DO WHILE with the label of its last statement.
#[tactic(auto, unfolding(grammar_laws::specs::FormReading::meant, grammar_laws::specs::FormReading::both, grammar_laws::specs::FormReading::going_on, grammar_laws::specs::FormReading::paired))]
fn labelled_do_while<'a>(
    alloc: Global,
    text: &[Character],
    tokens: &'a [Token],
) -> Result<(Body, &'a [Token]), Failure>
    ensures { Gives (λ p. (p.0, seen text.now p.1.now)) result (form.meant (λ p. body.DoWhile (Some p.0) p.1) (form.both form.a_label (form.with_comma reading.test_form)) (seen text.now tokens.now)) }
{
    let (label, rest) = label(text, tokens)?;
    let (found, rest) = possible_test(alloc, text, rest)?;
    Ok((Body::DoWhile(Some(label), found), rest))
}

/// DO WHILE without a label. MIL-STD-1753.
#[tactic(auto, unfolding(grammar_laws::specs::FormReading::meant, grammar_laws::specs::FormReading::going_on))]
fn plain_do_while<'a>(
    alloc: Global,
    text: &[Character],
    tokens: &'a [Token],
) -> Result<(Body, &'a [Token]), Failure>
    ensures { Gives (λ p. (p.0, seen text.now p.1.now)) result (form.meant (body.DoWhile None) reading.test_form (seen text.now tokens.now)) }
{
    let (found, rest) = test(alloc, text, tokens)?;
    Ok((Body::DoWhile(None, found), rest))
}

/// What stands behind the words of DO WHILE. MIL-STD-1753.
#[tactic(auto, unfolding(grammar_laws::specs::FormReading::either, grammar_laws::specs::FormReading::otherwise))]
pub fn do_while_statement<'a>(
    alloc: Global,
    text: &[Character],
    tokens: &'a [Token],
) -> Result<(Body, &'a [Token]), Failure>
    ensures { Gives (λ p. (p.0, seen text.now p.1.now)) result (reading.do_while_form (seen text.now tokens.now)) }
{
    match labelled_do_while(alloc, text, tokens) {
        Ok((found, rest)) => Ok((found, rest)),
        Err(Failure::Syntax) => plain_do_while(alloc, text, tokens),
        Err(Failure::NoMemory) => Err(Failure::NoMemory),
    }
}
