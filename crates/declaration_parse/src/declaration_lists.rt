//! Lists of what a form reads, with or without commas between them.

ghost use Rattle.std.specs.Prelude.{◌≡◌, ◌++◌, [], ◌∷◌, IfOk};
ghost use Rattle.fortran_grammar.specs.Forms.{listed};
ghost use Rattle.grammar_laws.specs.FormReading as form;
ghost use Rattle.stmt_lex.specs.SeenTokens.{seen};
ghost use Rattle.expression_parse.specs.Readings.{Gives};
ghost use Rattle.declaration_parse.specs.DeclarationSteps as step;

use super::declaration_forms::Read;
use expression_parse::{Failure, Wanted, taken};
use fortran_text::Character;
use plain_data::Items;
use std::alloc::{AllocError, Global};
use std::marker::PhantomData;
use stmt_lex::Token;

/// A list with one more item.
pub(super) fn pushed<T: Drop>(mut found: Items<T>, next: T) -> Result<Items<T>, AllocError>
    ensures { IfOk result (λ made. made ≡ found ++ next ∷ []) }
{
    found.push(next)?;
    Ok(found)
}

/// As many items as fuel allows, with what is found already, while commas stand between them.
#[cycle(list)]
#[tactic(auto, using(crate::proofs::DeclarationLemmas::list_steps), unfolding(grammar_laws::specs::FormReading::going_on))]
fn items<'a, R: Read>(
    alloc: Global,
    text: &[Character],
    found: Items<R::Found>,
    tokens: &'a [Token],
    fuel: usize,
) -> Result<(Items<R::Found>, &'a [Token]), Failure>
    ensures { Gives (λ p. (p.0, seen text.now p.1.now)) result (form.items fuel R.reader found (seen text.now tokens.now)) }
{
    if fuel == 0 {
        return Err(Failure::Syntax);
    }
    let (next, rest) = R::read(alloc, text, tokens)?;
    let found = pushed(found, next)?;
    further::<R>(alloc, text, found, rest, fuel - 1)
}

/// What goes on behind an item.
#[cycle(list)]
#[tactic(auto, using(crate::proofs::DeclarationLemmas::list_steps), unfolding(expression_parse::specs::WantedPieces::sort_of))]
fn further<'a, R: Read>(
    alloc: Global,
    text: &[Character],
    found: Items<R::Found>,
    tokens: &'a [Token],
    fuel: usize,
) -> Result<(Items<R::Found>, &'a [Token]), Failure>
    ensures { Gives (λ p. (p.0, seen text.now p.1.now)) result (step.further fuel R.reader found (seen text.now tokens.now)) }
{
    match taken(text, tokens, Wanted::Comma) {
        Some(rest) => items::<R>(alloc, text, found, rest, fuel),
        None => Ok((found, tokens)),
    }
}

/// One form or more, with commas between them.
pub(super) struct Separated<R>(PhantomData<R>);

#[tactic(auto, using(expression_parse::proofs::ReadingSteps::seen_lengths), unfolding(grammar_laws::specs::FormReading::separated))]
impl<R: Read> Read for Separated<R> {
    type Found = Items<R::Found>;

    ghost reader = { form.separated R.reader };

    fn read<'a>(
        alloc: Global,
        text: &[Character],
        tokens: &'a [Token],
    ) -> Result<(Items<R::Found>, &'a [Token]), Failure> {
        items::<R>(alloc, text, Items::new(alloc), tokens, tokens.len() + 1)
    }
}

/// As many forms as fuel allows, with what is found already.
#[tactic(auto, using(crate::proofs::DeclarationLemmas::round_steps), unfolding(grammar_laws::specs::FormReading::rounds_on))]
fn rounds<'a, R: Read>(
    alloc: Global,
    text: &[Character],
    found: Items<R::Found>,
    tokens: &'a [Token],
    fuel: usize,
) -> Result<(Items<R::Found>, &'a [Token]), Failure>
    ensures { Gives (λ p. (p.0, seen text.now p.1.now)) result (form.rounds fuel R.reader found (seen text.now tokens.now)) }
{
    if fuel == 0 {
        return Err(Failure::Syntax);
    }
    match R::read(alloc, text, tokens) {
        Ok((next, rest)) => rounds::<R>(alloc, text, pushed(found, next)?, rest, fuel - 1),
        Err(Failure::Syntax) => Ok((found, tokens)),
        Err(Failure::NoMemory) => Err(Failure::NoMemory),
    }
}

/// Any number of forms, one behind the other.
pub(super) struct Many<R>(PhantomData<R>);

#[tactic(auto, using(expression_parse::proofs::ReadingSteps::seen_lengths), unfolding(grammar_laws::specs::FormReading::many))]
impl<R: Read> Read for Many<R> {
    type Found = Items<R::Found>;

    ghost reader = { form.many R.reader };

    fn read<'a>(
        alloc: Global,
        text: &[Character],
        tokens: &'a [Token],
    ) -> Result<(Items<R::Found>, &'a [Token]), Failure> {
        rounds::<R>(alloc, text, Items::new(alloc), tokens, tokens.len() + 1)
    }
}

/// A list that may be left out.
#[tactic(auto, unfolding(fortran_grammar::specs::Forms::listed))]
pub(super) fn listed<T: Drop>(alloc: Global, found: Option<Items<T>>) -> Items<T>
    ensures { result ≡ listed found }
{
    match found {
        Some(found) => found,
        None => Items::new(alloc),
    }
}
