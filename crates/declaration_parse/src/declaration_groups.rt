//! IMPLICIT and EQUIVALENCE. Sections 8.2 and 8.5 of the standard, ANSI X3.9-1978; MIL-STD-1753: IMPLICIT NONE.

ghost use Rattle.std.specs.Prelude.{◌≡◌, IfOk};
ghost use Rattle.f_tree.specs.declared.statements.Body as body;
ghost use Rattle.fortran_grammar.specs.DeclarationForms as meaning;
ghost use Rattle.fortran_grammar.specs.Forms as sort;
ghost use Rattle.fortran_grammar.specs.ListForms.{chained};
ghost use Rattle.grammar_laws.specs.DeclarationReading as reading;
ghost use Rattle.grammar_laws.specs.ExpressionReading.{read_place};
ghost use Rattle.grammar_laws.specs.FormReading as form;
ghost use Rattle.fortran_lexemes.specs.Lexemes as lexeme;
ghost use Rattle.fortran_lexemes.specs.PiecesOfText.{codes_of};
ghost use Rattle.stmt_lex.specs.SeenTokens.{seen, spanned};
ghost use Rattle.expression_parse.specs.Readings.{Gives};

use super::declaration_forms::{After, Both, Comma, Either, Enclosed, Maybe, Minus, Place, Read};
use super::declaration_lists::Separated;
use super::declaration_types::TypeName;
use expression_parse::{Failure, characters, name_text, only_one};
use f_tree::{Body, EquivalenceGroup, ImplicitGroup, LetterRange};
use fortran_text::Character;
use plain_data::Items;
use std::alloc::{AllocError, Global};
use stmt_lex::{Span, Token};

/// A list from its first item and the others.
#[tactic(auto, unfolding(fortran_grammar::specs::ListForms::chained))]
fn chained<T: Drop>(alloc: Global, first: T, more: Items<T>) -> Result<Items<T>, AllocError>
    ensures { IfOk result (λ made. made ≡ chained (first, more)) }
{
    let mut found = Items::new(alloc);
    found.push(first)?;
    found.append(more)?;
    Ok(found)
}

/// Places that share their storage: at least two. Section 8.2.1.
struct SharedPlaces;

#[tactic(auto, unfolding(grammar_laws::specs::FormReading::meant, grammar_laws::specs::FormReading::going_on, fortran_grammar::specs::DeclarationForms::equivalence_of))]
impl Read for SharedPlaces {
    type Found = EquivalenceGroup;

    ghost reader = { form.meant meaning.equivalence_of (form.enclosed (form.both read_place (form.after sort.Comma (form.separated read_place)))) };

    fn read<'a>(
        alloc: Global,
        text: &[Character],
        tokens: &'a [Token],
    ) -> Result<(EquivalenceGroup, &'a [Token]), Failure> {
        let ((first, more), rest) = Enclosed::<Both<Place, After<Comma, Separated<Place>>>>::read(
            alloc, text, tokens,
        )?;
        let places = chained(alloc, first, more)?;
        Ok((EquivalenceGroup { places }, rest))
    }
}

/// What stands behind EQUIVALENCE. Section 8.2.
///
/// # Errors
///
/// A fault of syntax where it is no such form, or want of memory.
#[tactic(auto, unfolding(grammar_laws::specs::FormReading::meant, grammar_laws::specs::FormReading::going_on))]
pub fn equivalence_statement<'a>(
    alloc: Global,
    text: &[Character],
    tokens: &'a [Token],
) -> Result<(Body, &'a [Token]), Failure>
    ensures { Gives (λ p. (p.0, seen text.now p.1.now)) result (reading.equivalence_form (seen text.now tokens.now)) }
{
    let (found, rest) = Separated::<SharedPlaces>::read(alloc, text, tokens)?;
    Ok((Body::Equivalence(found), rest))
}

/// The letter that is a name, and the tokens behind it.
#[tactic(auto, using(crate::proofs::DeclarationLemmas::letter_steps), unfolding(grammar_laws::specs::FormReading::with_rest))]
fn letter_of_name<'a>(
    text: &[Character],
    span: Span,
    rest: &'a [Token],
) -> Result<(u8, &'a [Token]), Failure>
    ensures { Gives (λ p. (p.0, seen text.now p.1.now)) result (form.with_rest (seen text.now rest.now) (meaning.letter_of (lexeme.Name (codes_of (spanned text.now span))))) }
{
    match only_one(characters(text, span)) {
        Some(letter) => Ok((letter, rest)),
        None => Err(Failure::Syntax),
    }
}

/// A letter.
struct Letter;

#[tactic(auto, unfolding(grammar_laws::specs::FormReading::piece, grammar_laws::specs::FormReading::with_rest, fortran_grammar::specs::Forms::says_first, fortran_grammar::specs::Forms::behind, stmt_lex::specs::SeenTokens::seen, stmt_lex::specs::SeenTokens::lexeme_of, fortran_grammar::specs::DeclarationForms::letter_of))]
impl Read for Letter {
    type Found = u8;

    ghost reader = { form.piece meaning.letter_of };

    fn read<'a>(
        alloc: Global,
        text: &[Character],
        tokens: &'a [Token],
    ) -> Result<(u8, &'a [Token]), Failure> {
        match tokens {
            [Token::Name(span), rest @ ..] => letter_of_name(text, *span, rest),
            _ => Err(Failure::Syntax),
        }
    }
}

/// The letters from one to another, or the one alone.
#[tactic(auto, unfolding(fortran_grammar::specs::DeclarationForms::range_of))]
fn range_of(first: u8, last: Option<u8>) -> LetterRange
    ensures { result ≡ meaning.range_of (first, last) }
{
    match last {
        Some(last) => LetterRange { first, last },
        None => LetterRange { first, last: first },
    }
}

/// A letter, or two.
struct AnyLetters;

#[tactic(auto, unfolding(grammar_laws::specs::FormReading::meant, grammar_laws::specs::FormReading::going_on))]
impl Read for AnyLetters {
    type Found = LetterRange;

    ghost reader = { form.meant meaning.range_of (form.both (form.piece meaning.letter_of) (form.maybe (form.after sort.Minus (form.piece meaning.letter_of)))) };

    fn read<'a>(
        alloc: Global,
        text: &[Character],
        tokens: &'a [Token],
    ) -> Result<(LetterRange, &'a [Token]), Failure> {
        let ((first, last), rest) = Both::<Letter, Maybe<After<Minus, Letter>>>::read(
            alloc, text, tokens,
        )?;
        Ok((range_of(first, last), rest))
    }
}

/// A letter, or letters in alphabetical order. Section 8.5.
struct Letters;

#[tactic(auto, using(crate::proofs::DeclarationLemmas::where_steps), unfolding(grammar_laws::specs::FormReading::where_passes, grammar_laws::specs::FormReading::going_on, fortran_grammar::specs::DeclarationForms::in_order))]
impl Read for Letters {
    type Found = LetterRange;

    ghost reader = { reading.letters_form };

    fn read<'a>(
        alloc: Global,
        text: &[Character],
        tokens: &'a [Token],
    ) -> Result<(LetterRange, &'a [Token]), Failure> {
        let (range, rest) = AnyLetters::read(alloc, text, tokens)?;
        if range.first <= range.last {
            Ok((range, rest))
        } else {
            Err(Failure::Syntax)
        }
    }
}

/// A type and the letters that have it.
struct LettersOfType;

#[tactic(auto, unfolding(grammar_laws::specs::FormReading::meant, grammar_laws::specs::FormReading::going_on, fortran_grammar::specs::DeclarationForms::implicit_of))]
impl Read for LettersOfType {
    type Found = ImplicitGroup;

    ghost reader = { form.meant meaning.implicit_of (form.both reading.type_form (form.enclosed (form.separated reading.letters_form))) };

    fn read<'a>(
        alloc: Global,
        text: &[Character],
        tokens: &'a [Token],
    ) -> Result<(ImplicitGroup, &'a [Token]), Failure> {
        let ((spec, letters), rest) = Both::<TypeName, Enclosed<Separated<Letters>>>::read(
            alloc, text, tokens,
        )?;
        Ok((ImplicitGroup { spec, letters }, rest))
    }
}

/// NONE. MIL-STD-1753.
struct NoneWord;

#[tactic(auto, unfolding(grammar_laws::specs::FormReading::meant, grammar_laws::specs::FormReading::going_on, grammar_laws::specs::FormReading::piece, grammar_laws::specs::FormReading::with_rest, fortran_grammar::specs::Forms::says_first, fortran_grammar::specs::Forms::behind, stmt_lex::specs::SeenTokens::seen, stmt_lex::specs::SeenTokens::lexeme_of, fortran_grammar::specs::DeclarationForms::none_word))]
impl Read for NoneWord {
    type Found = Body;

    ghost reader = { form.meant (λ word. body.ImplicitNone) (form.piece meaning.none_word) };

    fn read<'a>(
        alloc: Global,
        text: &[Character],
        tokens: &'a [Token],
    ) -> Result<(Body, &'a [Token]), Failure> {
        match tokens {
            [Token::Name(span), rest @ ..] => {
                let word = name_text(alloc, text, *span)?;
                if word.as_slice() == b"none".as_slice() {
                    Ok((Body::ImplicitNone, rest))
                } else {
                    Err(Failure::Syntax)
                }
            }
            _ => Err(Failure::Syntax),
        }
    }
}

/// Types with the letters that have them.
struct TypesOfLetters;

#[tactic(auto, unfolding(grammar_laws::specs::FormReading::meant, grammar_laws::specs::FormReading::going_on))]
impl Read for TypesOfLetters {
    type Found = Body;

    ghost reader = { form.meant body.Implicit (form.separated (form.meant meaning.implicit_of (form.both reading.type_form (form.enclosed (form.separated reading.letters_form))))) };

    fn read<'a>(
        alloc: Global,
        text: &[Character],
        tokens: &'a [Token],
    ) -> Result<(Body, &'a [Token]), Failure> {
        let (found, rest) = Separated::<LettersOfType>::read(alloc, text, tokens)?;
        Ok((Body::Implicit(found), rest))
    }
}

/// What stands behind IMPLICIT. Section 8.5; MIL-STD-1753.
///
/// # Errors
///
/// A fault of syntax where it is no such form, or want of memory.
#[tactic(auto)]
pub fn implicit_statement<'a>(
    alloc: Global,
    text: &[Character],
    tokens: &'a [Token],
) -> Result<(Body, &'a [Token]), Failure>
    ensures { Gives (λ p. (p.0, seen text.now p.1.now)) result (reading.implicit_form (seen text.now tokens.now)) }
{
    Either::<NoneWord, TypesOfLetters>::read(alloc, text, tokens)
}
