//! Statements that call and end, with FORMAT and INCLUDE. Sections 11.12, 13.1.1 and 15 of the standard, ANSI X3.9-1978; MIL-STD-1753 for INCLUDE.

ghost use Rattle.std.specs.Prelude.{◌≡◌, [], ◌∷◌};
ghost use Rattle.grammar_laws.specs.StatementReading as reading;
ghost use Rattle.grammar_laws.specs.ExpressionReading as expressions;
ghost use Rattle.grammar_laws.specs.FormReading as form;
ghost use Rattle.fortran_grammar.specs.Forms as forms;
ghost use Rattle.f_tree.specs.declared.expressions.Expr as tree;
ghost use Rattle.f_tree.specs.declared.statements.Body as body;
ghost use Rattle.f_tree.specs.declared.statements.DummyArgument.TheVariants as dummy;
ghost use Rattle.fortran_grammar.specs.StatementForms as statements;
ghost use Rattle.stmt_lex.specs.SeenTokens.{seen};
ghost use Rattle.expression_parse.specs.Readings.{Gives};
ghost use Rattle.action_parse.specs.ActionSteps.{items_onward};

use super::actions::listed;
use expression_parse::{
    Failure, Wanted, characters, constant_text, label, name, name_text, quoted, read_expression,
    required, taken,
};
use f_tree::{Body, DummyArgument, Expr};
use fortran_text::Character;
use plain_data::Items;
use std::alloc::Global;
use stmt_lex::Token;

/// `*` and a label.
#[tactic(auto, using(crate::proofs::ActionLemmas::piece_steps), unfolding(expression_parse::specs::WantedPieces::sort_of))]
fn label_behind_star<'a>(
    text: &[Character],
    tokens: &'a [Token],
) -> Result<(u32, &'a [Token]), Failure>
    ensures { Gives (λ p. (p.0, seen text.now p.1.now)) result (form.after forms.Star form.a_label (seen text.now tokens.now)) }
{
    let rest = required(text, tokens, Wanted::Star)?;
    label(text, rest)
}

/// `*` and the label of an alternate return. Section 15.9.3.
#[tactic(auto, unfolding(grammar_laws::specs::FormReading::meant, grammar_laws::specs::FormReading::going_on))]
fn alternate_return<'a>(
    text: &[Character],
    tokens: &'a [Token],
) -> Result<(Expr, &'a [Token]), Failure>
    ensures { Gives (λ p. (p.0, seen text.now p.1.now)) result (form.meant tree.AltReturn (form.after forms.Star form.a_label) (seen text.now tokens.now)) }
{
    let (label, rest) = label_behind_star(text, tokens)?;
    Ok((Expr::AltReturn(label), rest))
}

/// An actual argument of a subroutine. Section 15.9.3.
#[tactic(auto, unfolding(grammar_laws::specs::FormReading::either, grammar_laws::specs::FormReading::otherwise))]
fn argument<'a>(
    alloc: Global,
    text: &[Character],
    tokens: &'a [Token],
) -> Result<(Expr, &'a [Token]), Failure>
    ensures { Gives (λ p. (p.0, seen text.now p.1.now)) result (reading.argument_form (seen text.now tokens.now)) }
{
    match read_expression(alloc, text, tokens) {
        Ok((found, rest)) => Ok((found, rest)),
        Err(Failure::Syntax) => alternate_return(text, tokens),
        Err(Failure::NoMemory) => Err(Failure::NoMemory),
    }
}

/// A name that is a dummy argument. Section 15.9.2.
#[tactic(auto, unfolding(grammar_laws::specs::FormReading::meant, grammar_laws::specs::FormReading::going_on))]
fn named_dummy<'a>(
    alloc: Global,
    text: &[Character],
    tokens: &'a [Token],
) -> Result<(DummyArgument, &'a [Token]), Failure>
    ensures { Gives (λ p. (p.0, seen text.now p.1.now)) result (form.meant dummy.Named form.a_name (seen text.now tokens.now)) }
{
    let (name, rest) = name(alloc, text, tokens)?;
    Ok((DummyArgument::Named(name), rest))
}

/// `*`, the place of an alternate return. Section 15.9.2.
#[tactic(auto, using(crate::proofs::ActionLemmas::piece_steps), unfolding(expression_parse::specs::WantedPieces::sort_of, grammar_laws::specs::FormReading::said))]
fn star_dummy<'a>(
    text: &[Character],
    tokens: &'a [Token],
) -> Result<(DummyArgument, &'a [Token]), Failure>
    ensures { Gives (λ p. (p.0, seen text.now p.1.now)) result (form.after forms.Star (form.said dummy.AlternateReturn) (seen text.now tokens.now)) }
{
    let rest = required(text, tokens, Wanted::Star)?;
    Ok((DummyArgument::AlternateReturn, rest))
}

/// A dummy argument of a subroutine. Section 15.9.2.
#[tactic(auto, unfolding(grammar_laws::specs::FormReading::either, grammar_laws::specs::FormReading::otherwise))]
fn dummy<'a>(
    alloc: Global,
    text: &[Character],
    tokens: &'a [Token],
) -> Result<(DummyArgument, &'a [Token]), Failure>
    ensures { Gives (λ p. (p.0, seen text.now p.1.now)) result (reading.dummy_form (seen text.now tokens.now)) }
{
    match named_dummy(alloc, text, tokens) {
        Ok((found, rest)) => Ok((found, rest)),
        Err(Failure::Syntax) => star_dummy(text, tokens),
        Err(Failure::NoMemory) => Err(Failure::NoMemory),
    }
}

/// A list in parentheses, which may be empty or left out.
#[tactic(auto, unfolding(fortran_grammar::specs::StatementForms::arguments_of))]
pub(super) fn arguments_of<T: Drop>(alloc: Global, list: Option<Option<Items<T>>>) -> Items<T>
    ensures { result ≡ statements.arguments_of list }
{
    match list {
        Some(inside) => listed(alloc, inside),
        None => Items::new(alloc),
    }
}

/// Actual arguments, as many as fuel allows, with what is found already, while commas stand between them.
#[cycle(listed_arguments)]
#[tactic(auto, using(crate::proofs::ActionLemmas::list_steps), unfolding(grammar_laws::specs::FormReading::going_on))]
fn listed_arguments_items<'a>(
    alloc: Global,
    text: &[Character],
    mut found: Items<Expr>,
    tokens: &'a [Token],
    fuel: usize,
) -> Result<(Items<Expr>, &'a [Token]), Failure>
    ensures { Gives (λ p. (p.0, seen text.now p.1.now)) result (form.items fuel reading.argument_form found (seen text.now tokens.now)) }
{
    if fuel == 0 {
        return Err(Failure::Syntax);
    }
    let (next, rest) = argument(alloc, text, tokens)?;
    found.push(next)?;
    listed_arguments_further(alloc, text, found, rest, fuel - 1)
}

/// What goes on behind one of them.
#[cycle(listed_arguments)]
#[tactic(auto, using(crate::proofs::ActionLemmas::list_steps), unfolding(expression_parse::specs::WantedPieces::sort_of))]
fn listed_arguments_further<'a>(
    alloc: Global,
    text: &[Character],
    found: Items<Expr>,
    tokens: &'a [Token],
    fuel: usize,
) -> Result<(Items<Expr>, &'a [Token]), Failure>
    ensures { Gives (λ p. (p.0, seen text.now p.1.now)) result (items_onward fuel reading.argument_form found (seen text.now tokens.now)) }
{
    match taken(text, tokens, Wanted::Comma) {
        Some(rest) => listed_arguments_items(alloc, text, found, rest, fuel),
        None => Ok((found, tokens)),
    }
}

/// Actual arguments, with commas between them.
#[tactic(auto, using(expression_parse::proofs::ReadingSteps::seen_lengths), unfolding(grammar_laws::specs::FormReading::separated))]
fn listed_arguments<'a>(
    alloc: Global,
    text: &[Character],
    tokens: &'a [Token],
) -> Result<(Items<Expr>, &'a [Token]), Failure>
    ensures { Gives (λ p. (p.0, seen text.now p.1.now)) result (form.separated reading.argument_form (seen text.now tokens.now)) }
{
    listed_arguments_items(alloc, text, Items::new(alloc), tokens, tokens.len() + 1)
}

/// Actual arguments, if there are some.
#[tactic(auto, unfolding(grammar_laws::specs::FormReading::maybe, grammar_laws::specs::FormReading::maybe_read))]
fn arguments_inside<'a>(
    alloc: Global,
    text: &[Character],
    tokens: &'a [Token],
) -> Result<(Option<Items<Expr>>, &'a [Token]), Failure>
    ensures { Gives (λ p. (p.0, seen text.now p.1.now)) result (form.maybe (form.separated reading.argument_form) (seen text.now tokens.now)) }
{
    match listed_arguments(alloc, text, tokens) {
        Ok((found, rest)) => Ok((Some(found), rest)),
        Err(Failure::Syntax) => Ok((None, tokens)),
        Err(Failure::NoMemory) => Err(Failure::NoMemory),
    }
}

/// Actual arguments, if there are some and `)`.
#[tactic(auto, using(crate::proofs::ActionLemmas::piece_steps), unfolding(grammar_laws::specs::FormReading::up_to, grammar_laws::specs::FormReading::going_on, expression_parse::specs::WantedPieces::sort_of))]
fn arguments_closed<'a>(
    alloc: Global,
    text: &[Character],
    tokens: &'a [Token],
) -> Result<(Option<Items<Expr>>, &'a [Token]), Failure>
    ensures { Gives (λ p. (p.0, seen text.now p.1.now)) result (form.up_to (form.maybe (form.separated reading.argument_form)) forms.Close (seen text.now tokens.now)) }
{
    let (found, rest) = arguments_inside(alloc, text, tokens)?;
    let rest = required(text, rest, Wanted::Close)?;
    Ok((found, rest))
}

/// Actual arguments, if there are some, in parentheses.
#[tactic(auto, using(crate::proofs::ActionLemmas::piece_steps), unfolding(grammar_laws::specs::FormReading::enclosed, expression_parse::specs::WantedPieces::sort_of))]
fn arguments<'a>(
    alloc: Global,
    text: &[Character],
    tokens: &'a [Token],
) -> Result<(Option<Items<Expr>>, &'a [Token]), Failure>
    ensures { Gives (λ p. (p.0, seen text.now p.1.now)) result (form.enclosed (form.maybe (form.separated reading.argument_form)) (seen text.now tokens.now)) }
{
    let rest = required(text, tokens, Wanted::Open)?;
    arguments_closed(alloc, text, rest)
}

/// Actual arguments in parentheses, which may be left out.
#[tactic(auto, unfolding(grammar_laws::specs::FormReading::maybe, grammar_laws::specs::FormReading::maybe_read))]
fn arguments_if_any<'a>(
    alloc: Global,
    text: &[Character],
    tokens: &'a [Token],
) -> Result<(Option<Option<Items<Expr>>>, &'a [Token]), Failure>
    ensures { Gives (λ p. (p.0, seen text.now p.1.now)) result (form.maybe (form.enclosed (form.maybe (form.separated reading.argument_form))) (seen text.now tokens.now)) }
{
    match arguments(alloc, text, tokens) {
        Ok((found, rest)) => Ok((Some(found), rest)),
        Err(Failure::Syntax) => Ok((None, tokens)),
        Err(Failure::NoMemory) => Err(Failure::NoMemory),
    }
}

/// What stands behind the word of CALL. Section 15.6.2.
#[tactic(auto, unfolding(grammar_laws::specs::FormReading::meant, grammar_laws::specs::FormReading::both, grammar_laws::specs::FormReading::going_on, grammar_laws::specs::FormReading::paired))]
pub fn call_statement<'a>(
    alloc: Global,
    text: &[Character],
    tokens: &'a [Token],
) -> Result<(Body, &'a [Token]), Failure>
    ensures { Gives (λ p. (p.0, seen text.now p.1.now)) result (reading.call_form (seen text.now tokens.now)) }
{
    let (name, rest) = name(alloc, text, tokens)?;
    let (list, rest) = arguments_if_any(alloc, text, rest)?;
    Ok((Body::Call(name, arguments_of(alloc, list)), rest))
}

/// Dummy arguments, as many as fuel allows, with what is found already, while commas stand between them.
#[cycle(listed_dummies)]
#[tactic(auto, using(crate::proofs::ActionLemmas::list_steps), unfolding(grammar_laws::specs::FormReading::going_on))]
fn listed_dummies_items<'a>(
    alloc: Global,
    text: &[Character],
    mut found: Items<DummyArgument>,
    tokens: &'a [Token],
    fuel: usize,
) -> Result<(Items<DummyArgument>, &'a [Token]), Failure>
    ensures { Gives (λ p. (p.0, seen text.now p.1.now)) result (form.items fuel reading.dummy_form found (seen text.now tokens.now)) }
{
    if fuel == 0 {
        return Err(Failure::Syntax);
    }
    let (next, rest) = dummy(alloc, text, tokens)?;
    found.push(next)?;
    listed_dummies_further(alloc, text, found, rest, fuel - 1)
}

/// What goes on behind one of them.
#[cycle(listed_dummies)]
#[tactic(auto, using(crate::proofs::ActionLemmas::list_steps), unfolding(expression_parse::specs::WantedPieces::sort_of))]
fn listed_dummies_further<'a>(
    alloc: Global,
    text: &[Character],
    found: Items<DummyArgument>,
    tokens: &'a [Token],
    fuel: usize,
) -> Result<(Items<DummyArgument>, &'a [Token]), Failure>
    ensures { Gives (λ p. (p.0, seen text.now p.1.now)) result (items_onward fuel reading.dummy_form found (seen text.now tokens.now)) }
{
    match taken(text, tokens, Wanted::Comma) {
        Some(rest) => listed_dummies_items(alloc, text, found, rest, fuel),
        None => Ok((found, tokens)),
    }
}

/// Dummy arguments, with commas between them.
#[tactic(auto, using(expression_parse::proofs::ReadingSteps::seen_lengths), unfolding(grammar_laws::specs::FormReading::separated))]
fn listed_dummies<'a>(
    alloc: Global,
    text: &[Character],
    tokens: &'a [Token],
) -> Result<(Items<DummyArgument>, &'a [Token]), Failure>
    ensures { Gives (λ p. (p.0, seen text.now p.1.now)) result (form.separated reading.dummy_form (seen text.now tokens.now)) }
{
    listed_dummies_items(alloc, text, Items::new(alloc), tokens, tokens.len() + 1)
}

/// Dummy arguments, if there are some.
#[tactic(auto, unfolding(grammar_laws::specs::FormReading::maybe, grammar_laws::specs::FormReading::maybe_read))]
fn dummies_inside<'a>(
    alloc: Global,
    text: &[Character],
    tokens: &'a [Token],
) -> Result<(Option<Items<DummyArgument>>, &'a [Token]), Failure>
    ensures { Gives (λ p. (p.0, seen text.now p.1.now)) result (form.maybe (form.separated reading.dummy_form) (seen text.now tokens.now)) }
{
    match listed_dummies(alloc, text, tokens) {
        Ok((found, rest)) => Ok((Some(found), rest)),
        Err(Failure::Syntax) => Ok((None, tokens)),
        Err(Failure::NoMemory) => Err(Failure::NoMemory),
    }
}

/// Dummy arguments, if there are some and `)`.
#[tactic(auto, using(crate::proofs::ActionLemmas::piece_steps), unfolding(grammar_laws::specs::FormReading::up_to, grammar_laws::specs::FormReading::going_on, expression_parse::specs::WantedPieces::sort_of))]
fn dummies_closed<'a>(
    alloc: Global,
    text: &[Character],
    tokens: &'a [Token],
) -> Result<(Option<Items<DummyArgument>>, &'a [Token]), Failure>
    ensures { Gives (λ p. (p.0, seen text.now p.1.now)) result (form.up_to (form.maybe (form.separated reading.dummy_form)) forms.Close (seen text.now tokens.now)) }
{
    let (found, rest) = dummies_inside(alloc, text, tokens)?;
    let rest = required(text, rest, Wanted::Close)?;
    Ok((found, rest))
}

/// Dummy arguments, if there are some, in parentheses.
#[tactic(auto, using(crate::proofs::ActionLemmas::piece_steps), unfolding(grammar_laws::specs::FormReading::enclosed, expression_parse::specs::WantedPieces::sort_of))]
fn dummies<'a>(
    alloc: Global,
    text: &[Character],
    tokens: &'a [Token],
) -> Result<(Option<Items<DummyArgument>>, &'a [Token]), Failure>
    ensures { Gives (λ p. (p.0, seen text.now p.1.now)) result (form.enclosed (form.maybe (form.separated reading.dummy_form)) (seen text.now tokens.now)) }
{
    let rest = required(text, tokens, Wanted::Open)?;
    dummies_closed(alloc, text, rest)
}

/// Dummy arguments in parentheses, which may be left out.
#[tactic(auto, unfolding(grammar_laws::specs::FormReading::maybe, grammar_laws::specs::FormReading::maybe_read))]
fn dummies_if_any<'a>(
    alloc: Global,
    text: &[Character],
    tokens: &'a [Token],
) -> Result<(Option<Option<Items<DummyArgument>>>, &'a [Token]), Failure>
    ensures { Gives (λ p. (p.0, seen text.now p.1.now)) result (form.maybe (form.enclosed (form.maybe (form.separated reading.dummy_form))) (seen text.now tokens.now)) }
{
    match dummies(alloc, text, tokens) {
        Ok((found, rest)) => Ok((Some(found), rest)),
        Err(Failure::Syntax) => Ok((None, tokens)),
        Err(Failure::NoMemory) => Err(Failure::NoMemory),
    }
}

/// What stands behind the word of ENTRY. Section 15.7.1.
#[tactic(auto, unfolding(grammar_laws::specs::FormReading::meant, grammar_laws::specs::FormReading::both, grammar_laws::specs::FormReading::going_on, grammar_laws::specs::FormReading::paired))]
pub fn entry_statement<'a>(
    alloc: Global,
    text: &[Character],
    tokens: &'a [Token],
) -> Result<(Body, &'a [Token]), Failure>
    ensures { Gives (λ p. (p.0, seen text.now p.1.now)) result (reading.entry_form (seen text.now tokens.now)) }
{
    let (name, rest) = name(alloc, text, tokens)?;
    let (list, rest) = dummies_if_any(alloc, text, rest)?;
    Ok((Body::Entry(name, arguments_of(alloc, list)), rest))
}

/// The number of an alternate return, if it stands there.
#[tactic(auto, unfolding(grammar_laws::specs::FormReading::maybe, grammar_laws::specs::FormReading::maybe_read))]
fn return_number<'a>(
    alloc: Global,
    text: &[Character],
    tokens: &'a [Token],
) -> Result<(Option<Expr>, &'a [Token]), Failure>
    ensures { Gives (λ p. (p.0, seen text.now p.1.now)) result (form.maybe expressions.read_expression (seen text.now tokens.now)) }
{
    match read_expression(alloc, text, tokens) {
        Ok((found, rest)) => Ok((Some(found), rest)),
        Err(Failure::Syntax) => Ok((None, tokens)),
        Err(Failure::NoMemory) => Err(Failure::NoMemory),
    }
}

/// What stands behind the word of RETURN. Section 15.8.
#[tactic(auto, unfolding(grammar_laws::specs::FormReading::meant, grammar_laws::specs::FormReading::going_on))]
pub fn return_statement<'a>(
    alloc: Global,
    text: &[Character],
    tokens: &'a [Token],
) -> Result<(Body, &'a [Token]), Failure>
    ensures { Gives (λ p. (p.0, seen text.now p.1.now)) result (reading.return_form (seen text.now tokens.now)) }
{
    let (number, rest) = return_number(alloc, text, tokens)?;
    Ok((Body::Return(number), rest))
}

/// Up to five digits, or a character constant. Section 11.12.
#[tactic(auto, unfolding(grammar_laws::specs::FormReading::piece, grammar_laws::specs::FormReading::with_rest, fortran_grammar::specs::Forms::says_first, fortran_grammar::specs::Forms::behind, stmt_lex::specs::SeenTokens::seen, stmt_lex::specs::SeenTokens::lexeme_of, fortran_grammar::specs::StatementForms::stop_text))]
fn stop_text<'a>(
    alloc: Global,
    text: &[Character],
    tokens: &'a [Token],
) -> Result<(Items<u8>, &'a [Token]), Failure>
    ensures { Gives (λ p. (p.0, seen text.now p.1.now)) result (form.piece statements.stop_text (seen text.now tokens.now)) }
{
    match tokens {
        [Token::Number(span, _), rest @ ..] if characters(text, *span).len() <= 5 => {
            Ok((name_text(alloc, text, *span)?, rest))
        }
        [Token::Quoted(span), rest @ ..] => Ok((constant_text(alloc, text, *span)?, rest)),
        _ => Err(Failure::Syntax),
    }
}

/// What a STOP statement tells, if it tells something.
#[tactic(auto, unfolding(grammar_laws::specs::FormReading::maybe, grammar_laws::specs::FormReading::maybe_read))]
fn stop_text_if_any<'a>(
    alloc: Global,
    text: &[Character],
    tokens: &'a [Token],
) -> Result<(Option<Items<u8>>, &'a [Token]), Failure>
    ensures { Gives (λ p. (p.0, seen text.now p.1.now)) result (form.maybe (form.piece statements.stop_text) (seen text.now tokens.now)) }
{
    match stop_text(alloc, text, tokens) {
        Ok((found, rest)) => Ok((Some(found), rest)),
        Err(Failure::Syntax) => Ok((None, tokens)),
        Err(Failure::NoMemory) => Err(Failure::NoMemory),
    }
}

/// What stands behind the word of STOP. Section 11.12.
#[tactic(auto, unfolding(grammar_laws::specs::FormReading::meant, grammar_laws::specs::FormReading::going_on))]
pub fn stop_statement<'a>(
    alloc: Global,
    text: &[Character],
    tokens: &'a [Token],
) -> Result<(Body, &'a [Token]), Failure>
    ensures { Gives (λ p. (p.0, seen text.now p.1.now)) result (reading.stop_form (seen text.now tokens.now)) }
{
    let (found, rest) = stop_text_if_any(alloc, text, tokens)?;
    Ok((Body::Stop(listed(alloc, found)), rest))
}

/// The text of a FORMAT statement.
#[tactic(auto, unfolding(grammar_laws::specs::FormReading::piece, grammar_laws::specs::FormReading::with_rest, fortran_grammar::specs::Forms::says_first, fortran_grammar::specs::Forms::behind, stmt_lex::specs::SeenTokens::seen, stmt_lex::specs::SeenTokens::lexeme_of, fortran_grammar::specs::StatementForms::format_text))]
fn format_text<'a>(
    alloc: Global,
    text: &[Character],
    tokens: &'a [Token],
) -> Result<(Items<u8>, &'a [Token]), Failure>
    ensures { Gives (λ p. (p.0, seen text.now p.1.now)) result (form.piece statements.format_text (seen text.now tokens.now)) }
{
    match tokens {
        [Token::FormatText(span), rest @ ..] => Ok((name_text(alloc, text, *span)?, rest)),
        _ => Err(Failure::Syntax),
    }
}

/// What stands behind the word of FORMAT. Section 13.1.1.
#[tactic(auto, unfolding(grammar_laws::specs::FormReading::meant, grammar_laws::specs::FormReading::going_on))]
pub fn format_statement<'a>(
    alloc: Global,
    text: &[Character],
    tokens: &'a [Token],
) -> Result<(Body, &'a [Token]), Failure>
    ensures { Gives (λ p. (p.0, seen text.now p.1.now)) result (reading.format_form (seen text.now tokens.now)) }
{
    let (found, rest) = format_text(alloc, text, tokens)?;
    Ok((Body::Format(found), rest))
}

/// What stands behind the word of INCLUDE. MIL-STD-1753.
#[tactic(auto, unfolding(grammar_laws::specs::FormReading::meant, grammar_laws::specs::FormReading::going_on))]
pub fn include_statement<'a>(
    alloc: Global,
    text: &[Character],
    tokens: &'a [Token],
) -> Result<(Body, &'a [Token]), Failure>
    ensures { Gives (λ p. (p.0, seen text.now p.1.now)) result (reading.include_form (seen text.now tokens.now)) }
{
    let (name, rest) = quoted(alloc, text, tokens)?;
    Ok((Body::Include(name), rest))
}
