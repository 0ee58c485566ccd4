//! The lists of READ, WRITE and PRINT, with their implied DO loops. Sections 12.8.2 and 12.8.2.3 of the standard, ANSI X3.9-1978.

ghost use Rattle.std.specs.Prelude.{◌≡◌, [], ◌∷◌, ◌++◌, Err, IfOk};
ghost use Rattle.f_tree.specs.declared.statements.ListItem as item;
ghost use Rattle.fortran_grammar.specs.Forms as piece;
ghost use Rattle.fortran_grammar.specs.Forms.{listed};
ghost use Rattle.grammar_laws.specs.FormReading.{is_keyed};
ghost use Rattle.grammar_laws.specs.ExpressionReading as reading;
ghost use Rattle.grammar_laws.specs.FormReading as form;
ghost use Rattle.grammar_laws.specs.ListReading as list;
ghost use Rattle.grammar_laws.specs.StatementReading as statement;
ghost use Rattle.list_parse.specs.ListSteps.{items_on, looped_step};
ghost use Rattle.stmt_lex.specs.SeenTokens.{seen};
ghost use Rattle.expression_parse.specs.Readings.{Gives};
ghost use Rattle.expression_parse.specs.WantedPieces.{sort_of};

use expression_parse::{Failure, Wanted, name, read_expression, taken};
use f_tree::{Expr, ListItem, LoopControl};
use fortran_lexemes::Sign;
use fortran_text::Character;
use plain_data::Items;
use std::alloc::{AllocError, Global};
use stmt_lex::Token;

/// A failure, where what was read before it is dropped.
pub fn failed<T: Drop, U>(_read: T, failure: Failure) -> Result<U, Failure>
    ensures { result ≡ Err failure }
{
    Err(failure)
}

/// What was found, and one more behind it.
pub fn with<T: Drop>(mut found: Items<T>, next: T) -> Result<Items<T>, AllocError>
    ensures { IfOk result (λ made. made ≡ found ++ next ∷ []) }
{
    found.push(next)?;
    Ok(found)
}

/// What was found, and a list that may be left out behind it.
#[tactic(auto, unfolding(fortran_grammar::specs::Forms::listed))]
fn with_others<T: Drop>(
    mut found: Items<T>,
    others: Option<Items<T>>,
) -> Result<Items<T>, AllocError>
    ensures { IfOk result (λ made. made ≡ found ++ listed others) }
{
    match others {
        Some(others) => {
            found.append(others)?;
            Ok(found)
        }
        None => Ok(found),
    }
}

/// A first one, and a list that may be left out behind it.
pub fn first_and_others<T: Drop>(
    alloc: Global,
    first: T,
    others: Option<Items<T>>,
) -> Result<Items<T>, AllocError>
    ensures { IfOk result (λ made. made ≡ first ∷ listed others) }
{
    let found = with(Items::new(alloc), first)?;
    with_others(found, others)
}

/// What was read, and the tokens behind the piece that closes it.
#[tactic(auto, using(crate::proofs::ListLemmas::taken_steps), unfolding(crate::specs::ListSteps::closed))]
pub fn behind_piece<'a, T: Drop>(
    text: &[Character],
    found: T,
    tokens: &'a [Token],
    wanted: Wanted,
) -> Result<(T, &'a [Token]), Failure>
    ensures { Gives (λ p. (p.0, seen text.now p.1.now)) result (form.up_to_piece (sort_of wanted) found (seen text.now tokens.now)) }
{
    match taken(text, tokens, wanted) {
        Some(rest) => Ok((found, rest)),
        None => Err(Failure::Syntax),
    }
}

/// Whether a name and `=` stand first.
#[tactic(auto, unfolding(grammar_laws::specs::FormReading::is_keyed, stmt_lex::specs::SeenTokens::seen, stmt_lex::specs::SeenTokens::lexeme_of))]
pub fn keyed(text: &[Character], tokens: &[Token]) -> bool
    ensures { result ≡ is_keyed (seen text.now tokens.now) }
{
    matches!(tokens, [Token::Name(_), Token::Mark(Sign::Equals), ..])
}

/// A comma and an expression.
#[tactic(auto, using(crate::proofs::ListLemmas::taken_steps), unfolding(expression_parse::specs::WantedPieces::sort_of, crate::specs::ListSteps::behind_taken))]
fn expression_behind_comma<'a>(
    alloc: Global,
    text: &[Character],
    tokens: &'a [Token],
) -> Result<(Expr, &'a [Token]), Failure>
    ensures { Gives (λ p. (p.0, seen text.now p.1.now)) result (form.after piece.Comma reading.read_expression (seen text.now tokens.now)) }
{
    match taken(text, tokens, Wanted::Comma) {
        Some(rest) => read_expression(alloc, text, rest),
        None => Err(Failure::Syntax),
    }
}

/// The step of a loop, if there is one.
#[tactic(auto, unfolding(grammar_laws::specs::FormReading::maybe, grammar_laws::specs::FormReading::maybe_read))]
fn step<'a>(
    alloc: Global,
    text: &[Character],
    tokens: &'a [Token],
) -> Result<(Option<Expr>, &'a [Token]), Failure>
    ensures { Gives (λ p. (p.0, seen text.now p.1.now)) result (form.maybe (form.after piece.Comma reading.read_expression) (seen text.now tokens.now)) }
{
    match expression_behind_comma(alloc, text, tokens) {
        Ok((found, rest)) => Ok((Some(found), rest)),
        Err(Failure::Syntax) => Ok((None, tokens)),
        Err(Failure::NoMemory) => Err(Failure::NoMemory),
    }
}

/// The limit of a loop, and its step.
#[tactic(auto, unfolding(grammar_laws::specs::FormReading::both, grammar_laws::specs::FormReading::going_on, grammar_laws::specs::FormReading::paired))]
fn limit<'a>(
    alloc: Global,
    text: &[Character],
    tokens: &'a [Token],
) -> Result<((Expr, Option<Expr>), &'a [Token]), Failure>
    ensures { Gives (λ p. (p.0, seen text.now p.1.now)) result (form.both reading.read_expression (form.maybe (form.after piece.Comma reading.read_expression)) (seen text.now tokens.now)) }
{
    let (limit, rest) = read_expression(alloc, text, tokens)?;
    match step(alloc, text, rest) {
        Ok((step, rest)) => Ok(((limit, step), rest)),
        Err(failure) => failed(limit, failure),
    }
}

/// A comma, the limit of a loop and its step.
#[tactic(auto, using(crate::proofs::ListLemmas::taken_steps), unfolding(expression_parse::specs::WantedPieces::sort_of, crate::specs::ListSteps::behind_taken))]
fn limit_behind_comma<'a>(
    alloc: Global,
    text: &[Character],
    tokens: &'a [Token],
) -> Result<((Expr, Option<Expr>), &'a [Token]), Failure>
    ensures { Gives (λ p. (p.0, seen text.now p.1.now)) result (form.after piece.Comma (form.both reading.read_expression (form.maybe (form.after piece.Comma reading.read_expression))) (seen text.now tokens.now)) }
{
    match taken(text, tokens, Wanted::Comma) {
        Some(rest) => limit(alloc, text, rest),
        None => Err(Failure::Syntax),
    }
}

/// The values of a loop: the first one, its limit and its step.
#[tactic(auto, unfolding(grammar_laws::specs::FormReading::both, grammar_laws::specs::FormReading::going_on, grammar_laws::specs::FormReading::paired))]
fn values<'a>(
    alloc: Global,
    text: &[Character],
    tokens: &'a [Token],
) -> Result<((Expr, (Expr, Option<Expr>)), &'a [Token]), Failure>
    ensures { Gives (λ p. (p.0, seen text.now p.1.now)) result (form.both reading.read_expression (form.after piece.Comma (form.both reading.read_expression (form.maybe (form.after piece.Comma reading.read_expression)))) (seen text.now tokens.now)) }
{
    let (first, rest) = read_expression(alloc, text, tokens)?;
    match limit_behind_comma(alloc, text, rest) {
        Ok((others, rest)) => Ok(((first, others), rest)),
        Err(failure) => failed(first, failure),
    }
}

/// `=` and the values of a loop.
#[tactic(auto, using(crate::proofs::ListLemmas::taken_steps), unfolding(expression_parse::specs::WantedPieces::sort_of, crate::specs::ListSteps::behind_taken))]
fn values_behind_equals<'a>(
    alloc: Global,
    text: &[Character],
    tokens: &'a [Token],
) -> Result<((Expr, (Expr, Option<Expr>)), &'a [Token]), Failure>
    ensures { Gives (λ p. (p.0, seen text.now p.1.now)) result (form.after piece.Equals (form.both reading.read_expression (form.after piece.Comma (form.both reading.read_expression (form.maybe (form.after piece.Comma reading.read_expression))))) (seen text.now tokens.now)) }
{
    match taken(text, tokens, Wanted::Equals) {
        Some(rest) => values(alloc, text, rest),
        None => Err(Failure::Syntax),
    }
}

/// The variable of a loop, and its values.
#[tactic(auto, unfolding(grammar_laws::specs::FormReading::both, grammar_laws::specs::FormReading::going_on, grammar_laws::specs::FormReading::paired))]
fn variable_and_values<'a>(
    alloc: Global,
    text: &[Character],
    tokens: &'a [Token],
) -> Result<((Items<u8>, (Expr, (Expr, Option<Expr>))), &'a [Token]), Failure>
    ensures { Gives (λ p. (p.0, seen text.now p.1.now)) result (form.both form.a_name (form.after piece.Equals (form.both reading.read_expression (form.after piece.Comma (form.both reading.read_expression (form.maybe (form.after piece.Comma reading.read_expression)))))) (seen text.now tokens.now)) }
{
    let (variable, rest) = name(alloc, text, tokens)?;
    match values_behind_equals(alloc, text, rest) {
        Ok((values, rest)) => Ok(((variable, values), rest)),
        Err(failure) => failed(variable, failure),
    }
}

/// The loop of an implied DO. Sections 11.10 and 12.8.2.3.
#[tactic(auto, unfolding(grammar_laws::specs::FormReading::meant, grammar_laws::specs::FormReading::going_on, fortran_grammar::specs::StatementForms::loop_of))]
pub(super) fn list_loop<'a>(
    alloc: Global,
    text: &[Character],
    tokens: &'a [Token],
) -> Result<(LoopControl, &'a [Token]), Failure>
    ensures { Gives (λ p. (p.0, seen text.now p.1.now)) result (statement.loop_form (seen text.now tokens.now)) }
{
    let ((variable, (first, (limit, step))), rest) = variable_and_values(alloc, text, tokens)?;
    Ok((
        LoopControl {
            variable,
            first,
            limit,
            step,
        },
        rest,
    ))
}

/// An item that is an expression.
#[tactic(auto, unfolding(grammar_laws::specs::FormReading::meant, grammar_laws::specs::FormReading::going_on))]
fn plain_item<'a>(
    alloc: Global,
    text: &[Character],
    tokens: &'a [Token],
) -> Result<(ListItem, &'a [Token]), Failure>
    ensures { Gives (λ p. (p.0, seen text.now p.1.now)) result (form.meant item.Item reading.read_expression (seen text.now tokens.now)) }
{
    let (found, rest) = read_expression(alloc, text, tokens)?;
    Ok((ListItem::Item(found), rest))
}

/// An item, or an implied DO with so many loops in one another at most.
#[cycle(implied_do)]
#[tactic(auto, using(crate::proofs::ListLemmas::deep_steps), unfolding(grammar_laws::specs::FormReading::otherwise))]
fn deep_item<'a>(
    alloc: Global,
    text: &[Character],
    tokens: &'a [Token],
    depth: usize,
) -> Result<(ListItem, &'a [Token]), Failure>
    ensures { Gives (λ p. (p.0, seen text.now p.1.now)) result (list.deep_item depth reading.read_expression (seen text.now tokens.now)) }
{
    if depth == 0 {
        return plain_item(alloc, text, tokens);
    }
    match plain_item(alloc, text, tokens) {
        Ok(read) => Ok(read),
        Err(Failure::Syntax) => loop_item(alloc, text, tokens, depth - 1),
        Err(Failure::NoMemory) => Err(Failure::NoMemory),
    }
}

/// An implied DO whose items have so many loops in one another at most.
#[cycle(implied_do)]
#[tactic(auto, unfolding(grammar_laws::specs::FormReading::meant, grammar_laws::specs::FormReading::going_on))]
fn loop_item<'a>(
    alloc: Global,
    text: &[Character],
    tokens: &'a [Token],
    depth: usize,
) -> Result<(ListItem, &'a [Token]), Failure>
    ensures { Gives (λ p. (p.0, seen text.now p.1.now)) result (form.meant (λ p. item.Loop p.0 p.1) (form.enclosed (form.looped (list.deep_item depth reading.read_expression) statement.loop_form)) (seen text.now tokens.now)) }
{
    let ((items, control), rest) = enclosed_loop(alloc, text, tokens, depth)?;
    Ok((ListItem::Loop(items, control), rest))
}

/// Items and a loop, in parentheses.
#[cycle(implied_do)]
#[tactic(auto, using(crate::proofs::ListLemmas::taken_steps), unfolding(grammar_laws::specs::FormReading::enclosed, expression_parse::specs::WantedPieces::sort_of, crate::specs::ListSteps::behind_taken))]
fn enclosed_loop<'a>(
    alloc: Global,
    text: &[Character],
    tokens: &'a [Token],
    depth: usize,
) -> Result<((Items<ListItem>, LoopControl), &'a [Token]), Failure>
    ensures { Gives (λ p. (p.0, seen text.now p.1.now)) result (form.enclosed (form.looped (list.deep_item depth reading.read_expression) statement.loop_form) (seen text.now tokens.now)) }
{
    match taken(text, tokens, Wanted::Open) {
        Some(rest) => closed_loop(alloc, text, rest, depth),
        None => Err(Failure::Syntax),
    }
}

/// Items and a loop, and `)`.
#[cycle(implied_do)]
#[tactic(auto, unfolding(grammar_laws::specs::FormReading::up_to, grammar_laws::specs::FormReading::going_on, expression_parse::specs::WantedPieces::sort_of))]
fn closed_loop<'a>(
    alloc: Global,
    text: &[Character],
    tokens: &'a [Token],
    depth: usize,
) -> Result<((Items<ListItem>, LoopControl), &'a [Token]), Failure>
    ensures { Gives (λ p. (p.0, seen text.now p.1.now)) result (form.up_to (form.looped (list.deep_item depth reading.read_expression) statement.loop_form) piece.Close (seen text.now tokens.now)) }
{
    let (found, rest) = looped(alloc, text, tokens, depth)?;
    behind_piece(text, found, rest, Wanted::Close)
}

/// Items and a loop, with commas between them.
#[cycle(implied_do)]
#[tactic(auto, using(expression_parse::proofs::ReadingSteps::seen_lengths, crate::proofs::ListLemmas::looped_steps), unfolding(grammar_laws::specs::FormReading::looped, grammar_laws::specs::FormReading::going_on, crate::specs::ListSteps::looped_on))]
fn looped<'a>(
    alloc: Global,
    text: &[Character],
    tokens: &'a [Token],
    depth: usize,
) -> Result<((Items<ListItem>, LoopControl), &'a [Token]), Failure>
    ensures { Gives (λ p. (p.0, seen text.now p.1.now)) result (form.looped (list.deep_item depth reading.read_expression) statement.loop_form (seen text.now tokens.now)) }
{
    let mut found = Items::new(alloc);
    let mut rest = tokens;
    let mut fuel = tokens.len() + 1;
    while fuel > 0 {
        (found, rest) = further_item(alloc, text, found, rest, depth)?;
        if keyed(text, rest) {
            return ended(alloc, text, found, rest);
        }
        fuel -= 1;
    }
    failed(found, Failure::Syntax)
}

/// What was found, and one more item with a comma behind it.
#[cycle(implied_do)]
#[tactic(auto, unfolding(crate::specs::ListSteps::looped_step, grammar_laws::specs::FormReading::going_on))]
fn further_item<'a>(
    alloc: Global,
    text: &[Character],
    found: Items<ListItem>,
    tokens: &'a [Token],
    depth: usize,
) -> Result<(Items<ListItem>, &'a [Token]), Failure>
    ensures { Gives (λ p. (p.0, seen text.now p.1.now)) result (looped_step (list.deep_item depth reading.read_expression) found (seen text.now tokens.now)) }
{
    match item_and_comma(alloc, text, tokens, depth) {
        Ok((item, rest)) => Ok((with(found, item)?, rest)),
        Err(failure) => failed(found, failure),
    }
}

/// An item and a comma.
#[cycle(implied_do)]
#[tactic(auto, unfolding(grammar_laws::specs::FormReading::up_to, grammar_laws::specs::FormReading::going_on, expression_parse::specs::WantedPieces::sort_of))]
fn item_and_comma<'a>(
    alloc: Global,
    text: &[Character],
    tokens: &'a [Token],
    depth: usize,
) -> Result<(ListItem, &'a [Token]), Failure>
    ensures { Gives (λ p. (p.0, seen text.now p.1.now)) result (form.up_to (list.deep_item depth reading.read_expression) piece.Comma (seen text.now tokens.now)) }
{
    let (found, rest) = deep_item(alloc, text, tokens, depth)?;
    behind_piece(text, found, rest, Wanted::Comma)
}

/// The loop behind the items that were found.
#[tactic(auto, unfolding(grammar_laws::specs::FormReading::ended_by))]
pub(super) fn ended<'a>(
    alloc: Global,
    text: &[Character],
    found: Items<ListItem>,
    tokens: &'a [Token],
) -> Result<((Items<ListItem>, LoopControl), &'a [Token]), Failure>
    ensures { Gives (λ p. (p.0, seen text.now p.1.now)) result (form.ended_by found (statement.loop_form (seen text.now tokens.now))) }
{
    match list_loop(alloc, text, tokens) {
        Ok((control, rest)) => Ok(((found, control), rest)),
        Err(failure) => failed(found, failure),
    }
}

/// An implied DO. Section 12.8.2.3.
#[tactic(auto, using(expression_parse::proofs::ReadingSteps::seen_lengths), unfolding(grammar_laws::specs::ListReading::implied_do))]
fn implied_do<'a>(
    alloc: Global,
    text: &[Character],
    tokens: &'a [Token],
) -> Result<(ListItem, &'a [Token]), Failure>
    ensures { Gives (λ p. (p.0, seen text.now p.1.now)) result (list.implied_do reading.read_expression (seen text.now tokens.now)) }
{
    loop_item(alloc, text, tokens, tokens.len())
}

/// An item of a list. Section 12.8.2.
#[tactic(auto, unfolding(grammar_laws::specs::FormReading::either, grammar_laws::specs::FormReading::otherwise))]
fn list_item<'a>(
    alloc: Global,
    text: &[Character],
    tokens: &'a [Token],
) -> Result<(ListItem, &'a [Token]), Failure>
    ensures { Gives (λ p. (p.0, seen text.now p.1.now)) result (list.item_form (seen text.now tokens.now)) }
{
    match plain_item(alloc, text, tokens) {
        Ok(read) => Ok(read),
        Err(Failure::Syntax) => implied_do(alloc, text, tokens),
        Err(Failure::NoMemory) => Err(Failure::NoMemory),
    }
}

/// The items of a list. Section 12.8.2.
#[tactic(auto, using(expression_parse::proofs::ReadingSteps::seen_lengths), unfolding(grammar_laws::specs::FormReading::separated))]
pub fn list_items<'a>(
    alloc: Global,
    text: &[Character],
    tokens: &'a [Token],
) -> Result<(Items<ListItem>, &'a [Token]), Failure>
    ensures { Gives (λ p. (p.0, seen text.now p.1.now)) result (form.separated (list.item_form) (seen text.now tokens.now)) }
{
    list_items_from(alloc, text, Items::new(alloc), tokens, tokens.len() + 1)
}

/// More of them behind those that were found.
#[cycle(list_items)]
#[tactic(auto, using(crate::proofs::ListLemmas::items_steps), unfolding(grammar_laws::specs::FormReading::going_on))]
fn list_items_from<'a>(
    alloc: Global,
    text: &[Character],
    found: Items<ListItem>,
    tokens: &'a [Token],
    fuel: usize,
) -> Result<(Items<ListItem>, &'a [Token]), Failure>
    ensures { Gives (λ p. (p.0, seen text.now p.1.now)) result (form.items fuel (list.item_form) found (seen text.now tokens.now)) }
{
    if fuel == 0 {
        return failed(found, Failure::Syntax);
    }
    match list_item(alloc, text, tokens) {
        Ok((item, rest)) => list_items_onward(alloc, text, with(found, item)?, rest, fuel - 1),
        Err(failure) => failed(found, failure),
    }
}

/// More of them where a comma goes on.
#[cycle(list_items)]
#[tactic(auto, unfolding(expression_parse::specs::WantedPieces::sort_of, crate::specs::ListSteps::items_on, crate::specs::ListSteps::items_by))]
fn list_items_onward<'a>(
    alloc: Global,
    text: &[Character],
    found: Items<ListItem>,
    tokens: &'a [Token],
    fuel: usize,
) -> Result<(Items<ListItem>, &'a [Token]), Failure>
    ensures { Gives (λ p. (p.0, seen text.now p.1.now)) result (items_on fuel (list.item_form) found (seen text.now tokens.now)) }
{
    match taken(text, tokens, Wanted::Comma) {
        Some(rest) => list_items_from(alloc, text, found, rest, fuel),
        None => Ok((found, tokens)),
    }
}

/// Expressions with commas between them.
#[tactic(auto, using(expression_parse::proofs::ReadingSteps::seen_lengths), unfolding(grammar_laws::specs::FormReading::separated))]
fn expressions<'a>(
    alloc: Global,
    text: &[Character],
    tokens: &'a [Token],
) -> Result<(Items<Expr>, &'a [Token]), Failure>
    ensures { Gives (λ p. (p.0, seen text.now p.1.now)) result (form.separated (reading.read_expression) (seen text.now tokens.now)) }
{
    expressions_from(alloc, text, Items::new(alloc), tokens, tokens.len() + 1)
}

/// More of them behind those that were found.
#[cycle(expressions)]
#[tactic(auto, using(crate::proofs::ListLemmas::items_steps), unfolding(grammar_laws::specs::FormReading::going_on))]
fn expressions_from<'a>(
    alloc: Global,
    text: &[Character],
    found: Items<Expr>,
    tokens: &'a [Token],
    fuel: usize,
) -> Result<(Items<Expr>, &'a [Token]), Failure>
    ensures { Gives (λ p. (p.0, seen text.now p.1.now)) result (form.items fuel (reading.read_expression) found (seen text.now tokens.now)) }
{
    if fuel == 0 {
        return failed(found, Failure::Syntax);
    }
    match read_expression(alloc, text, tokens) {
        Ok((item, rest)) => expressions_onward(alloc, text, with(found, item)?, rest, fuel - 1),
        Err(failure) => failed(found, failure),
    }
}

/// More of them where a comma goes on.
#[cycle(expressions)]
#[tactic(auto, unfolding(expression_parse::specs::WantedPieces::sort_of, crate::specs::ListSteps::items_on, crate::specs::ListSteps::items_by))]
fn expressions_onward<'a>(
    alloc: Global,
    text: &[Character],
    found: Items<Expr>,
    tokens: &'a [Token],
    fuel: usize,
) -> Result<(Items<Expr>, &'a [Token]), Failure>
    ensures { Gives (λ p. (p.0, seen text.now p.1.now)) result (items_on fuel (reading.read_expression) found (seen text.now tokens.now)) }
{
    match taken(text, tokens, Wanted::Comma) {
        Some(rest) => expressions_from(alloc, text, found, rest, fuel),
        None => Ok((found, tokens)),
    }
}

/// Expressions and `)`.
#[tactic(auto, unfolding(grammar_laws::specs::FormReading::up_to, grammar_laws::specs::FormReading::going_on, expression_parse::specs::WantedPieces::sort_of))]
fn closed_expressions<'a>(
    alloc: Global,
    text: &[Character],
    tokens: &'a [Token],
) -> Result<(Items<Expr>, &'a [Token]), Failure>
    ensures { Gives (λ p. (p.0, seen text.now p.1.now)) result (form.up_to (form.separated reading.read_expression) piece.Close (seen text.now tokens.now)) }
{
    let (found, rest) = expressions(alloc, text, tokens)?;
    behind_piece(text, found, rest, Wanted::Close)
}

/// Expressions in parentheses.
#[tactic(auto, using(crate::proofs::ListLemmas::taken_steps), unfolding(grammar_laws::specs::FormReading::enclosed, expression_parse::specs::WantedPieces::sort_of, crate::specs::ListSteps::behind_taken))]
pub fn enclosed_expressions<'a>(
    alloc: Global,
    text: &[Character],
    tokens: &'a [Token],
) -> Result<(Items<Expr>, &'a [Token]), Failure>
    ensures { Gives (λ p. (p.0, seen text.now p.1.now)) result (form.enclosed (form.separated reading.read_expression) (seen text.now tokens.now)) }
{
    match taken(text, tokens, Wanted::Open) {
        Some(rest) => closed_expressions(alloc, text, rest),
        None => Err(Failure::Syntax),
    }
}
