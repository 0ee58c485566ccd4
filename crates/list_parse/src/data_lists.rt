//! DATA: its places, with their implied DO loops, and its values. Section 9 of the standard, ANSI X3.9-1978.

ghost use Rattle.std.specs.Prelude.{◌≡◌};
ghost use Rattle.f_tree.specs.declared.expressions.Expr as expr;
ghost use Rattle.f_tree.specs.declared.statements.ListItem as item;
ghost use Rattle.fortran_grammar.specs.Forms as piece;
ghost use Rattle.fortran_grammar.specs.ListForms.{truth_of, value_of, single, data_group};
ghost use Rattle.grammar_laws.specs.ExpressionReading as reading;
ghost use Rattle.grammar_laws.specs.FormReading as form;
ghost use Rattle.grammar_laws.specs.ListReading as list;
ghost use Rattle.grammar_laws.specs.StatementReading as statement;
ghost use Rattle.list_parse.specs.ListSteps.{items_on, looped_step};
ghost use Rattle.stmt_lex.specs.SeenTokens.{seen};
ghost use Rattle.expression_parse.specs.Readings.{Gives};

use super::lists::{
    behind_piece, enclosed_expressions, ended, failed, first_and_others, keyed, with,
};
use expression_parse::{Failure, Wanted, name, quoted, read_place, taken};
use f_tree::{Body, DataGroup, DataValue, Expr, ListItem, LoopControl};
use fortran_text::Character;
use plain_data::{Boxed, Items};
use std::alloc::Global;
use stmt_lex::Token;

/// The greatest integer. Section 4.3.
const GREATEST: u32 = 2_147_483_647;

/// An integer without a sign. Section 4.3.
#[tactic(auto, unfolding(grammar_laws::specs::FormReading::meant, grammar_laws::specs::FormReading::going_on, grammar_laws::specs::FormReading::piece, grammar_laws::specs::FormReading::with_rest, fortran_grammar::specs::Forms::says_first, fortran_grammar::specs::Forms::behind, fortran_grammar::specs::Forms::number_of, stmt_lex::specs::SeenTokens::seen, stmt_lex::specs::SeenTokens::lexeme_of))]
fn integer<'a>(text: &[Character], tokens: &'a [Token]) -> Result<(Expr, &'a [Token]), Failure>
    ensures { Gives (λ p. (p.0, seen text.now p.1.now)) result (list.integer_form (seen text.now tokens.now)) }
{
    match tokens {
        [Token::Number(_, value), rest @ ..] if *value <= GREATEST => {
            Ok((Expr::Int(*value as i32), rest))
        }
        _ => Err(Failure::Syntax),
    }
}

/// `-` and an integer.
#[tactic(auto, using(crate::proofs::ListLemmas::taken_steps), unfolding(expression_parse::specs::WantedPieces::sort_of, crate::specs::ListSteps::behind_taken))]
fn integer_behind_minus<'a>(
    text: &[Character],
    tokens: &'a [Token],
) -> Result<(Expr, &'a [Token]), Failure>
    ensures { Gives (λ p. (p.0, seen text.now p.1.now)) result (form.after piece.Minus list.integer_form (seen text.now tokens.now)) }
{
    match taken(text, tokens, Wanted::Minus) {
        Some(rest) => integer(text, rest),
        None => Err(Failure::Syntax),
    }
}

/// An integer with `-`.
#[tactic(auto, unfolding(grammar_laws::specs::FormReading::meant, grammar_laws::specs::FormReading::going_on))]
fn negative<'a>(
    alloc: Global,
    text: &[Character],
    tokens: &'a [Token],
) -> Result<(Expr, &'a [Token]), Failure>
    ensures { Gives (λ p. (p.0, seen text.now p.1.now)) result (form.meant expr.Minus (form.after piece.Minus list.integer_form) (seen text.now tokens.now)) }
{
    let (found, rest) = integer_behind_minus(text, tokens)?;
    Ok((Expr::Minus(Boxed::new(alloc, found)?), rest))
}

/// `+` and an integer.
#[tactic(auto, using(crate::proofs::ListLemmas::taken_steps), unfolding(expression_parse::specs::WantedPieces::sort_of, crate::specs::ListSteps::behind_taken))]
fn integer_behind_plus<'a>(
    text: &[Character],
    tokens: &'a [Token],
) -> Result<(Expr, &'a [Token]), Failure>
    ensures { Gives (λ p. (p.0, seen text.now p.1.now)) result (form.after piece.Plus list.integer_form (seen text.now tokens.now)) }
{
    match taken(text, tokens, Wanted::Plus) {
        Some(rest) => integer(text, rest),
        None => Err(Failure::Syntax),
    }
}

/// An integer with `+`.
#[tactic(auto, unfolding(grammar_laws::specs::FormReading::meant, grammar_laws::specs::FormReading::going_on))]
fn positive<'a>(
    alloc: Global,
    text: &[Character],
    tokens: &'a [Token],
) -> Result<(Expr, &'a [Token]), Failure>
    ensures { Gives (λ p. (p.0, seen text.now p.1.now)) result (form.meant expr.Plus (form.after piece.Plus list.integer_form) (seen text.now tokens.now)) }
{
    let (found, rest) = integer_behind_plus(text, tokens)?;
    Ok((Expr::Plus(Boxed::new(alloc, found)?), rest))
}

/// A character constant. Section 4.8.
#[tactic(auto, unfolding(grammar_laws::specs::FormReading::meant, grammar_laws::specs::FormReading::going_on))]
fn text_constant<'a>(
    alloc: Global,
    text: &[Character],
    tokens: &'a [Token],
) -> Result<(Expr, &'a [Token]), Failure>
    ensures { Gives (λ p. (p.0, seen text.now p.1.now)) result (form.meant expr.Text form.a_quoted (seen text.now tokens.now)) }
{
    let (found, rest) = quoted(alloc, text, tokens)?;
    Ok((Expr::Text(found), rest))
}

/// `.TRUE.` or `.FALSE.`. Section 4.7.
#[tactic(auto, unfolding(grammar_laws::specs::FormReading::piece, grammar_laws::specs::FormReading::with_rest, fortran_grammar::specs::Forms::says_first, fortran_grammar::specs::Forms::behind, fortran_grammar::specs::ListForms::truth_of, stmt_lex::specs::SeenTokens::seen, stmt_lex::specs::SeenTokens::lexeme_of))]
fn truth<'a>(text: &[Character], tokens: &'a [Token]) -> Result<(bool, &'a [Token]), Failure>
    ensures { Gives (λ p. (p.0, seen text.now p.1.now)) result (form.piece truth_of (seen text.now tokens.now)) }
{
    match tokens {
        [Token::Truth(value), rest @ ..] => Ok((*value, rest)),
        _ => Err(Failure::Syntax),
    }
}

/// A logical constant.
#[tactic(auto, unfolding(grammar_laws::specs::FormReading::meant, grammar_laws::specs::FormReading::going_on))]
fn logical_constant<'a>(
    text: &[Character],
    tokens: &'a [Token],
) -> Result<(Expr, &'a [Token]), Failure>
    ensures { Gives (λ p. (p.0, seen text.now p.1.now)) result (form.meant expr.Logical (form.piece truth_of) (seen text.now tokens.now)) }
{
    let (found, rest) = truth(text, tokens)?;
    Ok((Expr::Logical(found), rest))
}

/// A character or logical constant.
#[tactic(auto, unfolding(grammar_laws::specs::FormReading::either, grammar_laws::specs::FormReading::otherwise))]
fn text_or_logical<'a>(
    alloc: Global,
    text: &[Character],
    tokens: &'a [Token],
) -> Result<(Expr, &'a [Token]), Failure>
    ensures { Gives (λ p. (p.0, seen text.now p.1.now)) result (form.either (form.meant expr.Text form.a_quoted) (form.meant expr.Logical (form.piece truth_of)) (seen text.now tokens.now)) }
{
    match text_constant(alloc, text, tokens) {
        Ok(read) => Ok(read),
        Err(Failure::Syntax) => logical_constant(text, tokens),
        Err(Failure::NoMemory) => Err(Failure::NoMemory),
    }
}

/// An integer with `+`, or a character or logical constant.
#[tactic(auto, unfolding(grammar_laws::specs::FormReading::either, grammar_laws::specs::FormReading::otherwise))]
fn positive_or_other<'a>(
    alloc: Global,
    text: &[Character],
    tokens: &'a [Token],
) -> Result<(Expr, &'a [Token]), Failure>
    ensures { Gives (λ p. (p.0, seen text.now p.1.now)) result (form.either (form.meant expr.Plus (form.after piece.Plus list.integer_form)) (form.either (form.meant expr.Text form.a_quoted) (form.meant expr.Logical (form.piece truth_of))) (seen text.now tokens.now)) }
{
    match positive(alloc, text, tokens) {
        Ok(read) => Ok(read),
        Err(Failure::Syntax) => text_or_logical(alloc, text, tokens),
        Err(Failure::NoMemory) => Err(Failure::NoMemory),
    }
}

/// A constant that is no integer without a sign and no name.
#[tactic(auto, unfolding(grammar_laws::specs::FormReading::either, grammar_laws::specs::FormReading::otherwise))]
fn other_constant<'a>(
    alloc: Global,
    text: &[Character],
    tokens: &'a [Token],
) -> Result<(Expr, &'a [Token]), Failure>
    ensures { Gives (λ p. (p.0, seen text.now p.1.now)) result (list.other_constant_form (seen text.now tokens.now)) }
{
    match negative(alloc, text, tokens) {
        Ok(read) => Ok(read),
        Err(Failure::Syntax) => positive_or_other(alloc, text, tokens),
        Err(Failure::NoMemory) => Err(Failure::NoMemory),
    }
}

/// A constant by its name.
#[tactic(auto, unfolding(grammar_laws::specs::FormReading::meant, grammar_laws::specs::FormReading::going_on))]
fn named_constant<'a>(
    alloc: Global,
    text: &[Character],
    tokens: &'a [Token],
) -> Result<(Expr, &'a [Token]), Failure>
    ensures { Gives (λ p. (p.0, seen text.now p.1.now)) result (form.meant expr.Name form.a_name (seen text.now tokens.now)) }
{
    let (found, rest) = name(alloc, text, tokens)?;
    Ok((Expr::Name(found), rest))
}

/// An integer without a sign, or a constant by its name.
#[tactic(auto, unfolding(grammar_laws::specs::FormReading::either, grammar_laws::specs::FormReading::otherwise))]
fn count<'a>(
    alloc: Global,
    text: &[Character],
    tokens: &'a [Token],
) -> Result<(Expr, &'a [Token]), Failure>
    ensures { Gives (λ p. (p.0, seen text.now p.1.now)) result (list.count_form (seen text.now tokens.now)) }
{
    match integer(text, tokens) {
        Ok(read) => Ok(read),
        Err(Failure::Syntax) => named_constant(alloc, text, tokens),
        Err(Failure::NoMemory) => Err(Failure::NoMemory),
    }
}

/// A constant.
#[tactic(auto, unfolding(grammar_laws::specs::FormReading::either, grammar_laws::specs::FormReading::otherwise))]
fn any_constant<'a>(
    alloc: Global,
    text: &[Character],
    tokens: &'a [Token],
) -> Result<(Expr, &'a [Token]), Failure>
    ensures { Gives (λ p. (p.0, seen text.now p.1.now)) result (form.either list.count_form list.other_constant_form (seen text.now tokens.now)) }
{
    match count(alloc, text, tokens) {
        Ok(read) => Ok(read),
        Err(Failure::Syntax) => other_constant(alloc, text, tokens),
        Err(Failure::NoMemory) => Err(Failure::NoMemory),
    }
}

/// `*` and a constant.
#[tactic(auto, using(crate::proofs::ListLemmas::taken_steps), unfolding(expression_parse::specs::WantedPieces::sort_of, crate::specs::ListSteps::behind_taken))]
fn constant_behind_star<'a>(
    alloc: Global,
    text: &[Character],
    tokens: &'a [Token],
) -> Result<(Expr, &'a [Token]), Failure>
    ensures { Gives (λ p. (p.0, seen text.now p.1.now)) result (form.after piece.Star (form.either list.count_form list.other_constant_form) (seen text.now tokens.now)) }
{
    match taken(text, tokens, Wanted::Star) {
        Some(rest) => any_constant(alloc, text, rest),
        None => Err(Failure::Syntax),
    }
}

/// `*` and a constant, if they stand there.
#[tactic(auto, unfolding(grammar_laws::specs::FormReading::maybe, grammar_laws::specs::FormReading::maybe_read))]
fn repeated_constant<'a>(
    alloc: Global,
    text: &[Character],
    tokens: &'a [Token],
) -> Result<(Option<Expr>, &'a [Token]), Failure>
    ensures { Gives (λ p. (p.0, seen text.now p.1.now)) result (form.maybe (form.after piece.Star (form.either list.count_form list.other_constant_form)) (seen text.now tokens.now)) }
{
    match constant_behind_star(alloc, text, tokens) {
        Ok((found, rest)) => Ok((Some(found), rest)),
        Err(Failure::Syntax) => Ok((None, tokens)),
        Err(Failure::NoMemory) => Err(Failure::NoMemory),
    }
}

/// How often a constant stands and the constant, or a constant alone.
#[tactic(auto, unfolding(grammar_laws::specs::FormReading::both, grammar_laws::specs::FormReading::going_on, grammar_laws::specs::FormReading::paired))]
fn count_and_constant<'a>(
    alloc: Global,
    text: &[Character],
    tokens: &'a [Token],
) -> Result<((Expr, Option<Expr>), &'a [Token]), Failure>
    ensures { Gives (λ p. (p.0, seen text.now p.1.now)) result (form.both list.count_form (form.maybe (form.after piece.Star (form.either list.count_form list.other_constant_form))) (seen text.now tokens.now)) }
{
    let (first, rest) = count(alloc, text, tokens)?;
    match repeated_constant(alloc, text, rest) {
        Ok((second, rest)) => Ok(((first, second), rest)),
        Err(failure) => failed(first, failure),
    }
}

/// A value from its first constant and its second, if there is one. Section 9.1.
#[tactic(auto, unfolding(fortran_grammar::specs::ListForms::value_of))]
fn value_from(first: Expr, second: Option<Expr>) -> DataValue
    ensures { result ≡ value_of (first, second) }
{
    match second {
        Some(value) => DataValue {
            count: Some(first),
            value,
        },
        None => DataValue {
            count: None,
            value: first,
        },
    }
}

/// A value with its count, or one that could be a count.
#[tactic(auto, unfolding(grammar_laws::specs::FormReading::meant, grammar_laws::specs::FormReading::going_on))]
fn counted_value<'a>(
    alloc: Global,
    text: &[Character],
    tokens: &'a [Token],
) -> Result<(DataValue, &'a [Token]), Failure>
    ensures { Gives (λ p. (p.0, seen text.now p.1.now)) result (form.meant value_of (form.both list.count_form (form.maybe (form.after piece.Star (form.either list.count_form list.other_constant_form)))) (seen text.now tokens.now)) }
{
    let ((first, second), rest) = count_and_constant(alloc, text, tokens)?;
    Ok((value_from(first, second), rest))
}

/// A value that stands once.
#[tactic(auto, unfolding(grammar_laws::specs::FormReading::meant, grammar_laws::specs::FormReading::going_on, fortran_grammar::specs::ListForms::single))]
fn single_value<'a>(
    alloc: Global,
    text: &[Character],
    tokens: &'a [Token],
) -> Result<(DataValue, &'a [Token]), Failure>
    ensures { Gives (λ p. (p.0, seen text.now p.1.now)) result (form.meant single list.other_constant_form (seen text.now tokens.now)) }
{
    let (value, rest) = other_constant(alloc, text, tokens)?;
    Ok((DataValue { count: None, value }, rest))
}

/// A value of DATA. Section 9.1.
#[tactic(auto, unfolding(grammar_laws::specs::FormReading::either, grammar_laws::specs::FormReading::otherwise))]
fn data_value<'a>(
    alloc: Global,
    text: &[Character],
    tokens: &'a [Token],
) -> Result<(DataValue, &'a [Token]), Failure>
    ensures { Gives (λ p. (p.0, seen text.now p.1.now)) result (list.data_value_form (seen text.now tokens.now)) }
{
    match counted_value(alloc, text, tokens) {
        Ok(read) => Ok(read),
        Err(Failure::Syntax) => single_value(alloc, text, tokens),
        Err(Failure::NoMemory) => Err(Failure::NoMemory),
    }
}

/// The values of a group.
#[tactic(auto, using(expression_parse::proofs::ReadingSteps::seen_lengths), unfolding(grammar_laws::specs::FormReading::separated))]
fn data_values<'a>(
    alloc: Global,
    text: &[Character],
    tokens: &'a [Token],
) -> Result<(Items<DataValue>, &'a [Token]), Failure>
    ensures { Gives (λ p. (p.0, seen text.now p.1.now)) result (form.separated (list.data_value_form) (seen text.now tokens.now)) }
{
    data_values_from(alloc, text, Items::new(alloc), tokens, tokens.len() + 1)
}

/// More of them behind those that were found.
#[cycle(data_values)]
#[tactic(auto, using(crate::proofs::ListLemmas::items_steps), unfolding(grammar_laws::specs::FormReading::going_on))]
fn data_values_from<'a>(
    alloc: Global,
    text: &[Character],
    found: Items<DataValue>,
    tokens: &'a [Token],
    fuel: usize,
) -> Result<(Items<DataValue>, &'a [Token]), Failure>
    ensures { Gives (λ p. (p.0, seen text.now p.1.now)) result (form.items fuel (list.data_value_form) found (seen text.now tokens.now)) }
{
    if fuel == 0 {
        return failed(found, Failure::Syntax);
    }
    match data_value(alloc, text, tokens) {
        Ok((item, rest)) => data_values_onward(alloc, text, with(found, item)?, rest, fuel - 1),
        Err(failure) => failed(found, failure),
    }
}

/// More of them where a comma goes on.
#[cycle(data_values)]
#[tactic(auto, unfolding(expression_parse::specs::WantedPieces::sort_of, crate::specs::ListSteps::items_on, crate::specs::ListSteps::items_by))]
fn data_values_onward<'a>(
    alloc: Global,
    text: &[Character],
    found: Items<DataValue>,
    tokens: &'a [Token],
    fuel: usize,
) -> Result<(Items<DataValue>, &'a [Token]), Failure>
    ensures { Gives (λ p. (p.0, seen text.now p.1.now)) result (items_on fuel (list.data_value_form) found (seen text.now tokens.now)) }
{
    match taken(text, tokens, Wanted::Comma) {
        Some(rest) => data_values_from(alloc, text, found, rest, fuel),
        None => Ok((found, tokens)),
    }
}

/// The values of a group and `/`.
#[tactic(auto, unfolding(grammar_laws::specs::FormReading::up_to, grammar_laws::specs::FormReading::going_on, expression_parse::specs::WantedPieces::sort_of))]
fn values_and_slash<'a>(
    alloc: Global,
    text: &[Character],
    tokens: &'a [Token],
) -> Result<(Items<DataValue>, &'a [Token]), Failure>
    ensures { Gives (λ p. (p.0, seen text.now p.1.now)) result (form.up_to (form.separated list.data_value_form) piece.Slash (seen text.now tokens.now)) }
{
    let (found, rest) = data_values(alloc, text, tokens)?;
    behind_piece(text, found, rest, Wanted::Slash)
}

/// The values of a group between slashes.
#[tactic(auto, using(crate::proofs::ListLemmas::taken_steps), unfolding(expression_parse::specs::WantedPieces::sort_of, crate::specs::ListSteps::behind_taken))]
fn values_in_slashes<'a>(
    alloc: Global,
    text: &[Character],
    tokens: &'a [Token],
) -> Result<(Items<DataValue>, &'a [Token]), Failure>
    ensures { Gives (λ p. (p.0, seen text.now p.1.now)) result (form.after piece.Slash (form.up_to (form.separated list.data_value_form) piece.Slash) (seen text.now tokens.now)) }
{
    match taken(text, tokens, Wanted::Slash) {
        Some(rest) => values_and_slash(alloc, text, rest),
        None => Err(Failure::Syntax),
    }
}

/// A name and expressions in parentheses.
#[tactic(auto, unfolding(grammar_laws::specs::FormReading::both, grammar_laws::specs::FormReading::going_on, grammar_laws::specs::FormReading::paired))]
fn name_and_list<'a>(
    alloc: Global,
    text: &[Character],
    tokens: &'a [Token],
) -> Result<((Items<u8>, Items<Expr>), &'a [Token]), Failure>
    ensures { Gives (λ p. (p.0, seen text.now p.1.now)) result (form.both form.a_name (form.enclosed (form.separated reading.read_expression)) (seen text.now tokens.now)) }
{
    let (name, rest) = name(alloc, text, tokens)?;
    match enclosed_expressions(alloc, text, rest) {
        Ok((subscripts, rest)) => Ok(((name, subscripts), rest)),
        Err(failure) => failed(name, failure),
    }
}

/// An array element. Section 5.3.
#[tactic(auto, unfolding(grammar_laws::specs::FormReading::meant, grammar_laws::specs::FormReading::going_on))]
fn element<'a>(
    alloc: Global,
    text: &[Character],
    tokens: &'a [Token],
) -> Result<(Expr, &'a [Token]), Failure>
    ensures { Gives (λ p. (p.0, seen text.now p.1.now)) result (list.element_form (seen text.now tokens.now)) }
{
    let ((name, subscripts), rest) = name_and_list(alloc, text, tokens)?;
    Ok((Expr::Apply(name, subscripts), rest))
}

/// An item that is an element.
#[tactic(auto, unfolding(grammar_laws::specs::FormReading::meant, grammar_laws::specs::FormReading::going_on))]
fn element_item<'a>(
    alloc: Global,
    text: &[Character],
    tokens: &'a [Token],
) -> Result<(ListItem, &'a [Token]), Failure>
    ensures { Gives (λ p. (p.0, seen text.now p.1.now)) result (form.meant item.Item list.element_form (seen text.now tokens.now)) }
{
    let (found, rest) = element(alloc, text, tokens)?;
    Ok((ListItem::Item(found), rest))
}

/// An element, or an implied DO with so many loops in one another at most.
#[cycle(elements)]
#[tactic(auto, using(crate::proofs::ListLemmas::deep_steps), unfolding(grammar_laws::specs::FormReading::otherwise))]
fn deep_element<'a>(
    alloc: Global,
    text: &[Character],
    tokens: &'a [Token],
    depth: usize,
) -> Result<(ListItem, &'a [Token]), Failure>
    ensures { Gives (λ p. (p.0, seen text.now p.1.now)) result (list.deep_item depth list.element_form (seen text.now tokens.now)) }
{
    if depth == 0 {
        return element_item(alloc, text, tokens);
    }
    match element_item(alloc, text, tokens) {
        Ok(read) => Ok(read),
        Err(Failure::Syntax) => element_loop(alloc, text, tokens, depth - 1),
        Err(Failure::NoMemory) => Err(Failure::NoMemory),
    }
}

/// An implied DO whose elements have so many loops in one another at most.
#[cycle(elements)]
#[tactic(auto, unfolding(grammar_laws::specs::FormReading::meant, grammar_laws::specs::FormReading::going_on))]
fn element_loop<'a>(
    alloc: Global,
    text: &[Character],
    tokens: &'a [Token],
    depth: usize,
) -> Result<(ListItem, &'a [Token]), Failure>
    ensures { Gives (λ p. (p.0, seen text.now p.1.now)) result (form.meant (λ p. item.Loop p.0 p.1) (form.enclosed (form.looped (list.deep_item depth list.element_form) statement.loop_form)) (seen text.now tokens.now)) }
{
    let ((items, control), rest) = enclosed_elements(alloc, text, tokens, depth)?;
    Ok((ListItem::Loop(items, control), rest))
}

/// Elements and a loop, in parentheses.
#[cycle(elements)]
#[tactic(auto, using(crate::proofs::ListLemmas::taken_steps), unfolding(grammar_laws::specs::FormReading::enclosed, expression_parse::specs::WantedPieces::sort_of, crate::specs::ListSteps::behind_taken))]
fn enclosed_elements<'a>(
    alloc: Global,
    text: &[Character],
    tokens: &'a [Token],
    depth: usize,
) -> Result<((Items<ListItem>, LoopControl), &'a [Token]), Failure>
    ensures { Gives (λ p. (p.0, seen text.now p.1.now)) result (form.enclosed (form.looped (list.deep_item depth list.element_form) statement.loop_form) (seen text.now tokens.now)) }
{
    match taken(text, tokens, Wanted::Open) {
        Some(rest) => closed_elements(alloc, text, rest, depth),
        None => Err(Failure::Syntax),
    }
}

/// Elements and a loop, and `)`.
#[cycle(elements)]
#[tactic(auto, unfolding(grammar_laws::specs::FormReading::up_to, grammar_laws::specs::FormReading::going_on, expression_parse::specs::WantedPieces::sort_of))]
fn closed_elements<'a>(
    alloc: Global,
    text: &[Character],
    tokens: &'a [Token],
    depth: usize,
) -> Result<((Items<ListItem>, LoopControl), &'a [Token]), Failure>
    ensures { Gives (λ p. (p.0, seen text.now p.1.now)) result (form.up_to (form.looped (list.deep_item depth list.element_form) statement.loop_form) piece.Close (seen text.now tokens.now)) }
{
    let (found, rest) = looped_elements(alloc, text, tokens, depth)?;
    behind_piece(text, found, rest, Wanted::Close)
}

/// Elements and a loop, with commas between them.
#[cycle(elements)]
#[tactic(auto, using(expression_parse::proofs::ReadingSteps::seen_lengths, crate::proofs::ListLemmas::looped_steps), unfolding(grammar_laws::specs::FormReading::looped, grammar_laws::specs::FormReading::going_on, crate::specs::ListSteps::looped_on))]
fn looped_elements<'a>(
    alloc: Global,
    text: &[Character],
    tokens: &'a [Token],
    depth: usize,
) -> Result<((Items<ListItem>, LoopControl), &'a [Token]), Failure>
    ensures { Gives (λ p. (p.0, seen text.now p.1.now)) result (form.looped (list.deep_item depth list.element_form) statement.loop_form (seen text.now tokens.now)) }
{
    let mut found = Items::new(alloc);
    let mut rest = tokens;
    let mut fuel = tokens.len() + 1;
    while fuel > 0 {
        (found, rest) = further_element(alloc, text, found, rest, depth)?;
        if keyed(text, rest) {
            return ended(alloc, text, found, rest);
        }
        fuel -= 1;
    }
    failed(found, Failure::Syntax)
}

/// What was found, and one more element with a comma behind it.
#[cycle(elements)]
#[tactic(auto, unfolding(crate::specs::ListSteps::looped_step, grammar_laws::specs::FormReading::going_on))]
fn further_element<'a>(
    alloc: Global,
    text: &[Character],
    found: Items<ListItem>,
    tokens: &'a [Token],
    depth: usize,
) -> Result<(Items<ListItem>, &'a [Token]), Failure>
    ensures { Gives (λ p. (p.0, seen text.now p.1.now)) result (looped_step (list.deep_item depth list.element_form) found (seen text.now tokens.now)) }
{
    match element_and_comma(alloc, text, tokens, depth) {
        Ok((item, rest)) => Ok((with(found, item)?, rest)),
        Err(failure) => failed(found, failure),
    }
}

/// An element and a comma.
#[cycle(elements)]
#[tactic(auto, unfolding(grammar_laws::specs::FormReading::up_to, grammar_laws::specs::FormReading::going_on, expression_parse::specs::WantedPieces::sort_of))]
fn element_and_comma<'a>(
    alloc: Global,
    text: &[Character],
    tokens: &'a [Token],
    depth: usize,
) -> Result<(ListItem, &'a [Token]), Failure>
    ensures { Gives (λ p. (p.0, seen text.now p.1.now)) result (form.up_to (list.deep_item depth list.element_form) piece.Comma (seen text.now tokens.now)) }
{
    let (found, rest) = deep_element(alloc, text, tokens, depth)?;
    behind_piece(text, found, rest, Wanted::Comma)
}

/// An implied DO of elements. Section 9.3.
#[tactic(auto, using(expression_parse::proofs::ReadingSteps::seen_lengths), unfolding(grammar_laws::specs::ListReading::implied_do))]
fn implied_do<'a>(
    alloc: Global,
    text: &[Character],
    tokens: &'a [Token],
) -> Result<(ListItem, &'a [Token]), Failure>
    ensures { Gives (λ p. (p.0, seen text.now p.1.now)) result (list.implied_do list.element_form (seen text.now tokens.now)) }
{
    element_loop(alloc, text, tokens, tokens.len())
}

/// A variable, array, element or substring.
#[tactic(auto, unfolding(grammar_laws::specs::FormReading::meant, grammar_laws::specs::FormReading::going_on))]
fn plain_place<'a>(
    alloc: Global,
    text: &[Character],
    tokens: &'a [Token],
) -> Result<(ListItem, &'a [Token]), Failure>
    ensures { Gives (λ p. (p.0, seen text.now p.1.now)) result (form.meant item.Item reading.read_place (seen text.now tokens.now)) }
{
    let (found, rest) = read_place(alloc, text, tokens)?;
    Ok((ListItem::Item(found), rest))
}

/// What DATA gives a value to. Sections 9.1 and 9.3.
#[tactic(auto, unfolding(grammar_laws::specs::FormReading::either, grammar_laws::specs::FormReading::otherwise))]
fn data_place<'a>(
    alloc: Global,
    text: &[Character],
    tokens: &'a [Token],
) -> Result<(ListItem, &'a [Token]), Failure>
    ensures { Gives (λ p. (p.0, seen text.now p.1.now)) result (list.data_place_form (seen text.now tokens.now)) }
{
    match plain_place(alloc, text, tokens) {
        Ok(read) => Ok(read),
        Err(Failure::Syntax) => implied_do(alloc, text, tokens),
        Err(Failure::NoMemory) => Err(Failure::NoMemory),
    }
}

/// The places of a group.
#[tactic(auto, using(expression_parse::proofs::ReadingSteps::seen_lengths), unfolding(grammar_laws::specs::FormReading::separated))]
fn data_places<'a>(
    alloc: Global,
    text: &[Character],
    tokens: &'a [Token],
) -> Result<(Items<ListItem>, &'a [Token]), Failure>
    ensures { Gives (λ p. (p.0, seen text.now p.1.now)) result (form.separated (list.data_place_form) (seen text.now tokens.now)) }
{
    data_places_from(alloc, text, Items::new(alloc), tokens, tokens.len() + 1)
}

/// More of them behind those that were found.
#[cycle(data_places)]
#[tactic(auto, using(crate::proofs::ListLemmas::items_steps), unfolding(grammar_laws::specs::FormReading::going_on))]
fn data_places_from<'a>(
    alloc: Global,
    text: &[Character],
    found: Items<ListItem>,
    tokens: &'a [Token],
    fuel: usize,
) -> Result<(Items<ListItem>, &'a [Token]), Failure>
    ensures { Gives (λ p. (p.0, seen text.now p.1.now)) result (form.items fuel (list.data_place_form) found (seen text.now tokens.now)) }
{
    if fuel == 0 {
        return failed(found, Failure::Syntax);
    }
    match data_place(alloc, text, tokens) {
        Ok((item, rest)) => data_places_onward(alloc, text, with(found, item)?, rest, fuel - 1),
        Err(failure) => failed(found, failure),
    }
}

/// More of them where a comma goes on.
#[cycle(data_places)]
#[tactic(auto, unfolding(expression_parse::specs::WantedPieces::sort_of, crate::specs::ListSteps::items_on, crate::specs::ListSteps::items_by))]
fn data_places_onward<'a>(
    alloc: Global,
    text: &[Character],
    found: Items<ListItem>,
    tokens: &'a [Token],
    fuel: usize,
) -> Result<(Items<ListItem>, &'a [Token]), Failure>
    ensures { Gives (λ p. (p.0, seen text.now p.1.now)) result (items_on fuel (list.data_place_form) found (seen text.now tokens.now)) }
{
    match taken(text, tokens, Wanted::Comma) {
        Some(rest) => data_places_from(alloc, text, found, rest, fuel),
        None => Ok((found, tokens)),
    }
}

/// The places of a group, and their values.
#[tactic(auto, unfolding(grammar_laws::specs::FormReading::both, grammar_laws::specs::FormReading::going_on, grammar_laws::specs::FormReading::paired))]
fn places_and_values<'a>(
    alloc: Global,
    text: &[Character],
    tokens: &'a [Token],
) -> Result<((Items<ListItem>, Items<DataValue>), &'a [Token]), Failure>
    ensures { Gives (λ p. (p.0, seen text.now p.1.now)) result (form.both (form.separated list.data_place_form) (form.after piece.Slash (form.up_to (form.separated list.data_value_form) piece.Slash)) (seen text.now tokens.now)) }
{
    let (places, rest) = data_places(alloc, text, tokens)?;
    match values_in_slashes(alloc, text, rest) {
        Ok((values, rest)) => Ok(((places, values), rest)),
        Err(failure) => failed(places, failure),
    }
}

/// A group of DATA. Section 9.1.
#[tactic(auto, unfolding(grammar_laws::specs::FormReading::meant, grammar_laws::specs::FormReading::going_on, fortran_grammar::specs::ListForms::data_group))]
fn data_group<'a>(
    alloc: Global,
    text: &[Character],
    tokens: &'a [Token],
) -> Result<(DataGroup, &'a [Token]), Failure>
    ensures { Gives (λ p. (p.0, seen text.now p.1.now)) result (list.data_group_form (seen text.now tokens.now)) }
{
    let ((places, values), rest) = places_and_values(alloc, text, tokens)?;
    Ok((DataGroup { places, values }, rest))
}

/// A comma and a group.
#[tactic(auto, using(crate::proofs::ListLemmas::taken_steps), unfolding(expression_parse::specs::WantedPieces::sort_of, crate::specs::ListSteps::behind_taken))]
fn group_behind_comma<'a>(
    alloc: Global,
    text: &[Character],
    tokens: &'a [Token],
) -> Result<(DataGroup, &'a [Token]), Failure>
    ensures { Gives (λ p. (p.0, seen text.now p.1.now)) result (form.after piece.Comma list.data_group_form (seen text.now tokens.now)) }
{
    match taken(text, tokens, Wanted::Comma) {
        Some(rest) => data_group(alloc, text, rest),
        None => Err(Failure::Syntax),
    }
}

/// A further group, with a comma before it or without one.
#[tactic(auto, unfolding(grammar_laws::specs::FormReading::with_comma, grammar_laws::specs::FormReading::either, grammar_laws::specs::FormReading::otherwise))]
fn further_group<'a>(
    alloc: Global,
    text: &[Character],
    tokens: &'a [Token],
) -> Result<(DataGroup, &'a [Token]), Failure>
    ensures { Gives (λ p. (p.0, seen text.now p.1.now)) result (form.with_comma list.data_group_form (seen text.now tokens.now)) }
{
    match group_behind_comma(alloc, text, tokens) {
        Ok(read) => Ok(read),
        Err(Failure::Syntax) => data_group(alloc, text, tokens),
        Err(Failure::NoMemory) => Err(Failure::NoMemory),
    }
}

/// More groups behind those that were found.
#[cycle(groups)]
#[tactic(auto, using(crate::proofs::ListLemmas::rounds_steps), unfolding(grammar_laws::specs::FormReading::rounds_on))]
fn groups_from<'a>(
    alloc: Global,
    text: &[Character],
    found: Items<DataGroup>,
    tokens: &'a [Token],
    fuel: usize,
) -> Result<(Items<DataGroup>, &'a [Token]), Failure>
    ensures { Gives (λ p. (p.0, seen text.now p.1.now)) result (form.rounds fuel (form.with_comma list.data_group_form) found (seen text.now tokens.now)) }
{
    if fuel == 0 {
        return failed(found, Failure::Syntax);
    }
    match further_group(alloc, text, tokens) {
        Ok((group, rest)) => groups_from(alloc, text, with(found, group)?, rest, fuel - 1),
        Err(Failure::Syntax) => Ok((found, tokens)),
        Err(Failure::NoMemory) => failed(found, Failure::NoMemory),
    }
}

/// Groups while they stand there.
#[tactic(auto, using(expression_parse::proofs::ReadingSteps::seen_lengths), unfolding(grammar_laws::specs::FormReading::many))]
fn groups<'a>(
    alloc: Global,
    text: &[Character],
    tokens: &'a [Token],
) -> Result<(Items<DataGroup>, &'a [Token]), Failure>
    ensures { Gives (λ p. (p.0, seen text.now p.1.now)) result (form.many (form.with_comma list.data_group_form) (seen text.now tokens.now)) }
{
    groups_from(alloc, text, Items::new(alloc), tokens, tokens.len() + 1)
}

/// A group, and those behind it.
#[tactic(auto, unfolding(grammar_laws::specs::FormReading::both, grammar_laws::specs::FormReading::going_on, grammar_laws::specs::FormReading::paired))]
fn group_and_groups<'a>(
    alloc: Global,
    text: &[Character],
    tokens: &'a [Token],
) -> Result<((DataGroup, Items<DataGroup>), &'a [Token]), Failure>
    ensures { Gives (λ p. (p.0, seen text.now p.1.now)) result (form.both list.data_group_form (form.many (form.with_comma list.data_group_form)) (seen text.now tokens.now)) }
{
    let (first, rest) = data_group(alloc, text, tokens)?;
    match groups(alloc, text, rest) {
        Ok((others, rest)) => Ok(((first, others), rest)),
        Err(failure) => failed(first, failure),
    }
}

/// DATA. Section 9.1.
#[tactic(auto, unfolding(grammar_laws::specs::FormReading::meant, grammar_laws::specs::FormReading::going_on, fortran_grammar::specs::ListForms::chained, fortran_grammar::specs::Forms::listed))]
pub fn data_statement<'a>(
    alloc: Global,
    text: &[Character],
    tokens: &'a [Token],
) -> Result<(Body, &'a [Token]), Failure>
    ensures { Gives (λ p. (p.0, seen text.now p.1.now)) result (list.data_form (seen text.now tokens.now)) }
{
    let ((first, others), rest) = group_and_groups(alloc, text, tokens)?;
    let groups = first_and_others(alloc, first, Some(others))?;
    Ok((Body::Init(groups), rest))
}
