//! Statements that assign and branch. Sections 10 and 11 of the standard, ANSI X3.9-1978.

ghost use Rattle.std.specs.Prelude.{◌≡◌, [], ◌∷◌};
ghost use Rattle.grammar_laws.specs.StatementReading as reading;
ghost use Rattle.grammar_laws.specs.ExpressionReading as expressions;
ghost use Rattle.grammar_laws.specs.FormReading as form;
ghost use Rattle.fortran_grammar.specs.Forms as forms;
ghost use Rattle.f_tree.specs.declared.expressions.Expr as tree;
ghost use Rattle.f_tree.specs.declared.statements.Body as body;
ghost use Rattle.stmt_lex.specs.SeenTokens.{seen};
ghost use Rattle.expression_parse.specs.Readings.{Gives};
ghost use Rattle.action_parse.specs.ActionSteps.{items_onward};

use expression_parse::{
    Failure, Wanted, label, name, read_expression, read_place, required, taken,
};
use f_tree::{Body, Expr};
use fortran_text::Character;
use plain_data::Items;
use std::alloc::Global;
use stmt_lex::Token;

/// TO and the name behind it.
#[tactic(auto, using(crate::proofs::ActionLemmas::piece_steps), unfolding(expression_parse::specs::WantedPieces::sort_of))]
fn name_behind_to<'a>(
    alloc: Global,
    text: &[Character],
    tokens: &'a [Token],
) -> Result<(Items<u8>, &'a [Token]), Failure>
    ensures { Gives (λ p. (p.0, seen text.now p.1.now)) result (form.after forms.ToWord form.a_name (seen text.now tokens.now)) }
{
    let rest = required(text, tokens, Wanted::To)?;
    name(alloc, text, rest)
}

/// What stands behind the word of ASSIGN. Section 10.3.
#[tactic(auto, unfolding(grammar_laws::specs::FormReading::meant, grammar_laws::specs::FormReading::both, grammar_laws::specs::FormReading::going_on, grammar_laws::specs::FormReading::paired))]
pub fn assign_statement<'a>(
    alloc: Global,
    text: &[Character],
    tokens: &'a [Token],
) -> Result<(Body, &'a [Token]), Failure>
    ensures { Gives (λ p. (p.0, seen text.now p.1.now)) result (reading.assign_form (seen text.now tokens.now)) }
{
    let (assigned, rest) = label(text, tokens)?;
    let (variable, rest) = name_behind_to(alloc, text, rest)?;
    Ok((Body::AssignLabel(assigned, variable), rest))
}

/// A name with nothing in its parentheses: a statement function without arguments. Section 15.4.
#[tactic(auto, using(crate::proofs::ActionLemmas::piece_steps), unfolding(grammar_laws::specs::FormReading::meant, grammar_laws::specs::FormReading::up_to, grammar_laws::specs::FormReading::going_on, expression_parse::specs::WantedPieces::sort_of))]
fn empty_function<'a>(
    alloc: Global,
    text: &[Character],
    tokens: &'a [Token],
) -> Result<(Expr, &'a [Token]), Failure>
    ensures { Gives (λ p. (p.0, seen text.now p.1.now)) result (form.meant (λ name. tree.Apply name []) (form.up_to (form.up_to form.a_name forms.Open) forms.Close) (seen text.now tokens.now)) }
{
    let (name, rest) = name(alloc, text, tokens)?;
    let rest = required(text, rest, Wanted::Open)?;
    let rest = required(text, rest, Wanted::Close)?;
    Ok((Expr::Apply(name, Items::new(alloc)), rest))
}

/// What is assigned to: a place, or a statement function without arguments. Sections 10 and 15.4.
#[tactic(auto, unfolding(grammar_laws::specs::FormReading::either, grammar_laws::specs::FormReading::otherwise))]
fn target<'a>(
    alloc: Global,
    text: &[Character],
    tokens: &'a [Token],
) -> Result<(Expr, &'a [Token]), Failure>
    ensures { Gives (λ p. (p.0, seen text.now p.1.now)) result (reading.target_form (seen text.now tokens.now)) }
{
    match empty_function(alloc, text, tokens) {
        Ok((found, rest)) => Ok((found, rest)),
        Err(Failure::Syntax) => read_place(alloc, text, tokens),
        Err(Failure::NoMemory) => Err(Failure::NoMemory),
    }
}

/// `=` and an expression.
#[tactic(auto, using(crate::proofs::ActionLemmas::piece_steps), unfolding(expression_parse::specs::WantedPieces::sort_of))]
fn assigned_value<'a>(
    alloc: Global,
    text: &[Character],
    tokens: &'a [Token],
) -> Result<(Expr, &'a [Token]), Failure>
    ensures { Gives (λ p. (p.0, seen text.now p.1.now)) result (form.after forms.Equals expressions.read_expression (seen text.now tokens.now)) }
{
    let rest = required(text, tokens, Wanted::Equals)?;
    read_expression(alloc, text, rest)
}

/// An assignment, or the definition of a statement function. Sections 10.1 to 10.4 and 15.4.
#[tactic(auto, unfolding(grammar_laws::specs::FormReading::meant, grammar_laws::specs::FormReading::both, grammar_laws::specs::FormReading::going_on, grammar_laws::specs::FormReading::paired))]
pub fn assignment_statement<'a>(
    alloc: Global,
    text: &[Character],
    tokens: &'a [Token],
) -> Result<(Body, &'a [Token]), Failure>
    ensures { Gives (λ p. (p.0, seen text.now p.1.now)) result (reading.assignment_form (seen text.now tokens.now)) }
{
    let (target, rest) = target(alloc, text, tokens)?;
    let (value, rest) = assigned_value(alloc, text, rest)?;
    Ok((Body::Assign(target, value), rest))
}

/// Statement labels, as many as fuel allows, with what is found already, while commas stand between them.
#[cycle(listed_labels)]
#[tactic(auto, using(crate::proofs::ActionLemmas::list_steps), unfolding(grammar_laws::specs::FormReading::going_on))]
fn listed_labels_items<'a>(
    alloc: Global,
    text: &[Character],
    mut found: Items<u32>,
    tokens: &'a [Token],
    fuel: usize,
) -> Result<(Items<u32>, &'a [Token]), Failure>
    ensures { Gives (λ p. (p.0, seen text.now p.1.now)) result (form.items fuel form.a_label found (seen text.now tokens.now)) }
{
    if fuel == 0 {
        return Err(Failure::Syntax);
    }
    let (next, rest) = label(text, tokens)?;
    found.push(next)?;
    listed_labels_further(alloc, text, found, rest, fuel - 1)
}

/// What goes on behind one of them.
#[cycle(listed_labels)]
#[tactic(auto, using(crate::proofs::ActionLemmas::list_steps), unfolding(expression_parse::specs::WantedPieces::sort_of))]
fn listed_labels_further<'a>(
    alloc: Global,
    text: &[Character],
    found: Items<u32>,
    tokens: &'a [Token],
    fuel: usize,
) -> Result<(Items<u32>, &'a [Token]), Failure>
    ensures { Gives (λ p. (p.0, seen text.now p.1.now)) result (items_onward fuel form.a_label found (seen text.now tokens.now)) }
{
    match taken(text, tokens, Wanted::Comma) {
        Some(rest) => listed_labels_items(alloc, text, found, rest, fuel),
        None => Ok((found, tokens)),
    }
}

/// Statement labels, with commas between them.
#[tactic(auto, using(expression_parse::proofs::ReadingSteps::seen_lengths), unfolding(grammar_laws::specs::FormReading::separated))]
fn listed_labels<'a>(
    alloc: Global,
    text: &[Character],
    tokens: &'a [Token],
) -> Result<(Items<u32>, &'a [Token]), Failure>
    ensures { Gives (λ p. (p.0, seen text.now p.1.now)) result (form.separated form.a_label (seen text.now tokens.now)) }
{
    listed_labels_items(alloc, text, Items::new(alloc), tokens, tokens.len() + 1)
}

/// Statement labels and `)`.
#[tactic(auto, using(crate::proofs::ActionLemmas::piece_steps), unfolding(grammar_laws::specs::FormReading::up_to, grammar_laws::specs::FormReading::going_on, expression_parse::specs::WantedPieces::sort_of))]
fn labels_closed<'a>(
    alloc: Global,
    text: &[Character],
    tokens: &'a [Token],
) -> Result<(Items<u32>, &'a [Token]), Failure>
    ensures { Gives (λ p. (p.0, seen text.now p.1.now)) result (form.up_to (form.separated form.a_label) forms.Close (seen text.now tokens.now)) }
{
    let (found, rest) = listed_labels(alloc, text, tokens)?;
    let rest = required(text, rest, Wanted::Close)?;
    Ok((found, rest))
}

/// Statement labels, in parentheses.
#[tactic(auto, using(crate::proofs::ActionLemmas::piece_steps), unfolding(grammar_laws::specs::FormReading::enclosed, expression_parse::specs::WantedPieces::sort_of))]
fn labels<'a>(
    alloc: Global,
    text: &[Character],
    tokens: &'a [Token],
) -> Result<(Items<u32>, &'a [Token]), Failure>
    ensures { Gives (λ p. (p.0, seen text.now p.1.now)) result (form.enclosed (form.separated form.a_label) (seen text.now tokens.now)) }
{
    let rest = required(text, tokens, Wanted::Open)?;
    labels_closed(alloc, text, rest)
}

/// GO TO a label. Section 11.1.
#[tactic(auto, unfolding(grammar_laws::specs::FormReading::meant, grammar_laws::specs::FormReading::going_on))]
fn plain_goto<'a>(text: &[Character], tokens: &'a [Token]) -> Result<(Body, &'a [Token]), Failure>
    ensures { Gives (λ p. (p.0, seen text.now p.1.now)) result (reading.plain_goto_form (seen text.now tokens.now)) }
{
    let (label, rest) = label(text, tokens)?;
    Ok((Body::Goto(label), rest))
}

/// A comma and an expression.
#[tactic(auto, using(crate::proofs::ActionLemmas::piece_steps), unfolding(expression_parse::specs::WantedPieces::sort_of))]
pub(super) fn expression_behind_comma<'a>(
    alloc: Global,
    text: &[Character],
    tokens: &'a [Token],
) -> Result<(Expr, &'a [Token]), Failure>
    ensures { Gives (λ p. (p.0, seen text.now p.1.now)) result (form.after forms.Comma expressions.read_expression (seen text.now tokens.now)) }
{
    let rest = required(text, tokens, Wanted::Comma)?;
    read_expression(alloc, text, rest)
}

/// An expression, with a comma before it or without one.
#[tactic(auto, unfolding(grammar_laws::specs::FormReading::either, grammar_laws::specs::FormReading::otherwise, grammar_laws::specs::FormReading::with_comma))]
fn index<'a>(
    alloc: Global,
    text: &[Character],
    tokens: &'a [Token],
) -> Result<(Expr, &'a [Token]), Failure>
    ensures { Gives (λ p. (p.0, seen text.now p.1.now)) result (form.with_comma expressions.read_expression (seen text.now tokens.now)) }
{
    match expression_behind_comma(alloc, text, tokens) {
        Ok((found, rest)) => Ok((found, rest)),
        Err(Failure::Syntax) => read_expression(alloc, text, tokens),
        Err(Failure::NoMemory) => Err(Failure::NoMemory),
    }
}

/// GO TO one of some labels. Section 11.2.
#[tactic(auto, unfolding(grammar_laws::specs::FormReading::meant, grammar_laws::specs::FormReading::both, grammar_laws::specs::FormReading::going_on, grammar_laws::specs::FormReading::paired))]
fn computed_goto<'a>(
    alloc: Global,
    text: &[Character],
    tokens: &'a [Token],
) -> Result<(Body, &'a [Token]), Failure>
    ensures { Gives (λ p. (p.0, seen text.now p.1.now)) result (reading.computed_goto_form (seen text.now tokens.now)) }
{
    let (labels, rest) = labels(alloc, text, tokens)?;
    let (index, rest) = index(alloc, text, rest)?;
    Ok((Body::GotoList(labels, index), rest))
}

/// A comma and labels.
#[tactic(auto, using(crate::proofs::ActionLemmas::piece_steps), unfolding(expression_parse::specs::WantedPieces::sort_of))]
fn labels_behind_comma<'a>(
    alloc: Global,
    text: &[Character],
    tokens: &'a [Token],
) -> Result<(Items<u32>, &'a [Token]), Failure>
    ensures { Gives (λ p. (p.0, seen text.now p.1.now)) result (form.after forms.Comma reading.labels_form (seen text.now tokens.now)) }
{
    let rest = required(text, tokens, Wanted::Comma)?;
    labels(alloc, text, rest)
}

/// Labels, with a comma before them or without one.
#[tactic(auto, unfolding(grammar_laws::specs::FormReading::either, grammar_laws::specs::FormReading::otherwise, grammar_laws::specs::FormReading::with_comma))]
fn possible_labels<'a>(
    alloc: Global,
    text: &[Character],
    tokens: &'a [Token],
) -> Result<(Items<u32>, &'a [Token]), Failure>
    ensures { Gives (λ p. (p.0, seen text.now p.1.now)) result (form.with_comma reading.labels_form (seen text.now tokens.now)) }
{
    match labels_behind_comma(alloc, text, tokens) {
        Ok((found, rest)) => Ok((found, rest)),
        Err(Failure::Syntax) => labels(alloc, text, tokens),
        Err(Failure::NoMemory) => Err(Failure::NoMemory),
    }
}

/// Labels, if there are some.
#[tactic(auto, unfolding(grammar_laws::specs::FormReading::maybe, grammar_laws::specs::FormReading::maybe_read))]
fn labels_if_any<'a>(
    alloc: Global,
    text: &[Character],
    tokens: &'a [Token],
) -> Result<(Option<Items<u32>>, &'a [Token]), Failure>
    ensures { Gives (λ p. (p.0, seen text.now p.1.now)) result (form.maybe (form.with_comma reading.labels_form) (seen text.now tokens.now)) }
{
    match possible_labels(alloc, text, tokens) {
        Ok((found, rest)) => Ok((Some(found), rest)),
        Err(Failure::Syntax) => Ok((None, tokens)),
        Err(Failure::NoMemory) => Err(Failure::NoMemory),
    }
}

/// A list that may be left out.
#[tactic(auto, unfolding(fortran_grammar::specs::Forms::listed))]
pub(super) fn listed<T: Drop>(alloc: Global, list: Option<Items<T>>) -> Items<T>
    ensures { result ≡ forms.listed list }
{
    match list {
        Some(list) => list,
        None => Items::new(alloc),
    }
}

/// GO TO an assigned label. Section 11.3.
#[tactic(auto, unfolding(grammar_laws::specs::FormReading::meant, grammar_laws::specs::FormReading::both, grammar_laws::specs::FormReading::going_on, grammar_laws::specs::FormReading::paired))]
fn assigned_goto<'a>(
    alloc: Global,
    text: &[Character],
    tokens: &'a [Token],
) -> Result<(Body, &'a [Token]), Failure>
    ensures { Gives (λ p. (p.0, seen text.now p.1.now)) result (reading.assigned_goto_form (seen text.now tokens.now)) }
{
    let (variable, rest) = name(alloc, text, tokens)?;
    let (labels, rest) = labels_if_any(alloc, text, rest)?;
    Ok((Body::GotoName(variable, listed(alloc, labels)), rest))
}

/// GO TO one of some labels, or the label that was assigned. Sections 11.2 and 11.3.
#[tactic(auto, unfolding(grammar_laws::specs::FormReading::either, grammar_laws::specs::FormReading::otherwise))]
fn chosen_goto<'a>(
    alloc: Global,
    text: &[Character],
    tokens: &'a [Token],
) -> Result<(Body, &'a [Token]), Failure>
    ensures { Gives (λ p. (p.0, seen text.now p.1.now)) result (form.either reading.computed_goto_form reading.assigned_goto_form (seen text.now tokens.now)) }
{
    match computed_goto(alloc, text, tokens) {
        Ok((found, rest)) => Ok((found, rest)),
        Err(Failure::Syntax) => assigned_goto(alloc, text, tokens),
        Err(Failure::NoMemory) => Err(Failure::NoMemory),
    }
}

/// What stands behind the words of GO TO. Sections 11.1 to 11.3.
#[tactic(auto, unfolding(grammar_laws::specs::FormReading::either, grammar_laws::specs::FormReading::otherwise))]
pub fn goto_statement<'a>(
    alloc: Global,
    text: &[Character],
    tokens: &'a [Token],
) -> Result<(Body, &'a [Token]), Failure>
    ensures { Gives (λ p. (p.0, seen text.now p.1.now)) result (reading.goto_form (seen text.now tokens.now)) }
{
    match plain_goto(text, tokens) {
        Ok((found, rest)) => Ok((found, rest)),
        Err(Failure::Syntax) => chosen_goto(alloc, text, tokens),
        Err(Failure::NoMemory) => Err(Failure::NoMemory),
    }
}

/// A condition and `)`.
#[tactic(auto, using(crate::proofs::ActionLemmas::piece_steps), unfolding(grammar_laws::specs::FormReading::up_to, grammar_laws::specs::FormReading::going_on, expression_parse::specs::WantedPieces::sort_of))]
fn test_closed<'a>(
    alloc: Global,
    text: &[Character],
    tokens: &'a [Token],
) -> Result<(Expr, &'a [Token]), Failure>
    ensures { Gives (λ p. (p.0, seen text.now p.1.now)) result (form.up_to expressions.read_expression forms.Close (seen text.now tokens.now)) }
{
    let (found, rest) = read_expression(alloc, text, tokens)?;
    let rest = required(text, rest, Wanted::Close)?;
    Ok((found, rest))
}

/// A condition, in parentheses.
#[tactic(auto, using(crate::proofs::ActionLemmas::piece_steps), unfolding(grammar_laws::specs::FormReading::enclosed, expression_parse::specs::WantedPieces::sort_of))]
pub fn test<'a>(
    alloc: Global,
    text: &[Character],
    tokens: &'a [Token],
) -> Result<(Expr, &'a [Token]), Failure>
    ensures { Gives (λ p. (p.0, seen text.now p.1.now)) result (form.enclosed expressions.read_expression (seen text.now tokens.now)) }
{
    let rest = required(text, tokens, Wanted::Open)?;
    test_closed(alloc, text, rest)
}

/// A comma and a label.
#[tactic(auto, using(crate::proofs::ActionLemmas::piece_steps), unfolding(expression_parse::specs::WantedPieces::sort_of))]
fn label_behind_comma<'a>(
    text: &[Character],
    tokens: &'a [Token],
) -> Result<(u32, &'a [Token]), Failure>
    ensures { Gives (λ p. (p.0, seen text.now p.1.now)) result (form.after forms.Comma form.a_label (seen text.now tokens.now)) }
{
    let rest = required(text, tokens, Wanted::Comma)?;
    label(text, rest)
}

/// Two labels.
#[tactic(auto, unfolding(grammar_laws::specs::FormReading::meant, grammar_laws::specs::FormReading::both, grammar_laws::specs::FormReading::going_on, grammar_laws::specs::FormReading::paired))]
fn two_labels<'a>(
    text: &[Character],
    tokens: &'a [Token],
) -> Result<((u32, u32), &'a [Token]), Failure>
    ensures { Gives (λ p. (p.0, seen text.now p.1.now)) result (form.both form.a_label (form.after forms.Comma form.a_label) (seen text.now tokens.now)) }
{
    let (first, rest) = label(text, tokens)?;
    let (second, rest) = label_behind_comma(text, rest)?;
    Ok(((first, second), rest))
}

/// A comma and two labels.
#[tactic(auto, using(crate::proofs::ActionLemmas::piece_steps), unfolding(expression_parse::specs::WantedPieces::sort_of))]
fn two_labels_behind_comma<'a>(
    text: &[Character],
    tokens: &'a [Token],
) -> Result<((u32, u32), &'a [Token]), Failure>
    ensures { Gives (λ p. (p.0, seen text.now p.1.now)) result (form.after forms.Comma (form.both form.a_label (form.after forms.Comma form.a_label)) (seen text.now tokens.now)) }
{
    let rest = required(text, tokens, Wanted::Comma)?;
    two_labels(text, rest)
}

/// The labels for a negative value, for zero and for a positive one. Section 11.4.
#[tactic(auto, unfolding(grammar_laws::specs::FormReading::meant, grammar_laws::specs::FormReading::both, grammar_laws::specs::FormReading::going_on, grammar_laws::specs::FormReading::paired))]
pub fn sign_labels<'a>(
    text: &[Character],
    tokens: &'a [Token],
) -> Result<((u32, (u32, u32)), &'a [Token]), Failure>
    ensures { Gives (λ p. (p.0, seen text.now p.1.now)) result (reading.sign_labels_form (seen text.now tokens.now)) }
{
    let (first, rest) = label(text, tokens)?;
    let (others, rest) = two_labels_behind_comma(text, rest)?;
    Ok(((first, others), rest))
}

/// What stands behind the word of an arithmetic IF. Section 11.4.
#[tactic(auto, unfolding(grammar_laws::specs::FormReading::meant, grammar_laws::specs::FormReading::both, grammar_laws::specs::FormReading::going_on, grammar_laws::specs::FormReading::paired, fortran_grammar::specs::StatementForms::if_sign))]
pub fn arithmetic_if_statement<'a>(
    alloc: Global,
    text: &[Character],
    tokens: &'a [Token],
) -> Result<(Body, &'a [Token]), Failure>
    ensures { Gives (λ p. (p.0, seen text.now p.1.now)) result (reading.arithmetic_if_form (seen text.now tokens.now)) }
{
    let (value, rest) = test(alloc, text, tokens)?;
    let ((negative, (zero, positive)), rest) = sign_labels(text, rest)?;
    Ok((Body::IfSign(value, negative, zero, positive), rest))
}

/// A condition and THEN.
#[tactic(auto, using(crate::proofs::ActionLemmas::piece_steps), unfolding(grammar_laws::specs::FormReading::up_to, grammar_laws::specs::FormReading::going_on, expression_parse::specs::WantedPieces::sort_of))]
fn test_and_then<'a>(
    alloc: Global,
    text: &[Character],
    tokens: &'a [Token],
) -> Result<(Expr, &'a [Token]), Failure>
    ensures { Gives (λ p. (p.0, seen text.now p.1.now)) result (form.up_to reading.test_form forms.ThenWord (seen text.now tokens.now)) }
{
    let (condition, rest) = test(alloc, text, tokens)?;
    let rest = required(text, rest, Wanted::Then)?;
    Ok((condition, rest))
}

/// What stands behind the word of IF .. THEN. Section 11.6.
#[tactic(auto, unfolding(grammar_laws::specs::FormReading::meant, grammar_laws::specs::FormReading::going_on))]
pub fn block_if_statement<'a>(
    alloc: Global,
    text: &[Character],
    tokens: &'a [Token],
) -> Result<(Body, &'a [Token]), Failure>
    ensures { Gives (λ p. (p.0, seen text.now p.1.now)) result (reading.block_if_form (seen text.now tokens.now)) }
{
    let (condition, rest) = test_and_then(alloc, text, tokens)?;
    Ok((Body::IfThen(condition), rest))
}

/// What stands behind the words of ELSE IF. Section 11.7.
#[tactic(auto, unfolding(grammar_laws::specs::FormReading::meant, grammar_laws::specs::FormReading::going_on))]
pub fn else_if_statement<'a>(
    alloc: Global,
    text: &[Character],
    tokens: &'a [Token],
) -> Result<(Body, &'a [Token]), Failure>
    ensures { Gives (λ p. (p.0, seen text.now p.1.now)) result (reading.else_if_form (seen text.now tokens.now)) }
{
    let (condition, rest) = test_and_then(alloc, text, tokens)?;
    Ok((Body::ElseIf(condition), rest))
}
