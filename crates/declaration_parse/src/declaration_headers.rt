//! The statements that begin a unit, and the type statements. Sections 8.4, 14.1, 15 and 16.1 of the standard, ANSI X3.9-1978.

ghost use Rattle.std.specs.Prelude.{◌≡◌, IfOk, map};
ghost use Rattle.f_tree.specs.declared.statements.Body as body;
ghost use Rattle.f_tree.specs.declared.statements.DummyArgument.TheVariants as dummy;
ghost use Rattle.fortran_grammar.specs.DeclarationForms as meaning;
ghost use Rattle.fortran_grammar.specs.Forms as sort;
ghost use Rattle.fortran_grammar.specs.StatementForms.{arguments_of};
ghost use Rattle.grammar_laws.specs.DeclarationReading as reading;
ghost use Rattle.grammar_laws.specs.FormReading as form;
ghost use Rattle.stmt_lex.specs.SeenTokens.{seen};
ghost use Rattle.expression_parse.specs.Readings.{Gives};

use super::declaration_forms::{Both, Either, Enclosed, Maybe, Name, Piece, Read, Star};
use super::declaration_lists::{Separated, listed, pushed};
use super::declaration_types::{TypeName, declared};
use expression_parse::Failure;
use f_tree::{Basic, Body, DummyArgument, Text, TypeSpec, UnitKind};
use fortran_lexemes::StmtKind;
use fortran_text::Character;
use plain_data::Items;
use std::alloc::{AllocError, Global};
use stmt_lex::Token;

/// What stands behind PROGRAM. Section 14.1.
///
/// # Errors
///
/// A fault of syntax where it is no such form, or want of memory.
#[tactic(auto, unfolding(grammar_laws::specs::FormReading::meant, grammar_laws::specs::FormReading::going_on, fortran_grammar::specs::DeclarationForms::program_header))]
pub fn program_statement<'a>(
    alloc: Global,
    text: &[Character],
    tokens: &'a [Token],
) -> Result<(Body, &'a [Token]), Failure>
    ensures { Gives (λ p. (p.0, seen text.now p.1.now)) result (reading.program_form (seen text.now tokens.now)) }
{
    let (name, rest) = Name::read(alloc, text, tokens)?;
    Ok((
        Body::Header(UnitKind::Main, Some(name), Items::new(alloc)),
        rest,
    ))
}

/// What stands behind BLOCK DATA. Section 16.1.
///
/// # Errors
///
/// A fault of syntax where it is no such form, or want of memory.
#[tactic(auto, unfolding(grammar_laws::specs::FormReading::meant, grammar_laws::specs::FormReading::going_on, fortran_grammar::specs::DeclarationForms::block_data_header))]
pub fn block_data_statement<'a>(
    alloc: Global,
    text: &[Character],
    tokens: &'a [Token],
) -> Result<(Body, &'a [Token]), Failure>
    ensures { Gives (λ p. (p.0, seen text.now p.1.now)) result (reading.block_data_form (seen text.now tokens.now)) }
{
    let (name, rest) = Maybe::<Name>::read(alloc, text, tokens)?;
    Ok((
        Body::Header(UnitKind::BlockData, name, Items::new(alloc)),
        rest,
    ))
}

/// A dummy argument that is a name.
struct DummyName;

#[tactic(auto, unfolding(grammar_laws::specs::FormReading::meant, grammar_laws::specs::FormReading::going_on))]
impl Read for DummyName {
    type Found = DummyArgument;

    ghost reader = { form.meant dummy.Named form.a_name };

    fn read<'a>(
        alloc: Global,
        text: &[Character],
        tokens: &'a [Token],
    ) -> Result<(DummyArgument, &'a [Token]), Failure> {
        let (name, rest) = Name::read(alloc, text, tokens)?;
        Ok((DummyArgument::Named(name), rest))
    }
}

/// `*` in the place of an alternate return.
struct AlternateReturn;

#[tactic(auto, using(crate::proofs::DeclarationLemmas::piece_steps), unfolding(grammar_laws::specs::FormReading::said))]
impl Read for AlternateReturn {
    type Found = DummyArgument;

    ghost reader = { form.after sort.Star (form.said dummy.AlternateReturn) };

    fn read<'a>(
        alloc: Global,
        text: &[Character],
        tokens: &'a [Token],
    ) -> Result<(DummyArgument, &'a [Token]), Failure> {
        match Star::behind(text, tokens) {
            Some(rest) => Ok((DummyArgument::AlternateReturn, rest)),
            None => Err(Failure::Syntax),
        }
    }
}

/// A list in parentheses, where either may be left out.
#[tactic(auto, unfolding(fortran_grammar::specs::StatementForms::arguments_of))]
fn arguments_of<T: Drop>(alloc: Global, found: Option<Option<Items<T>>>) -> Items<T>
    ensures { result ≡ arguments_of found }
{
    match found {
        Some(inside) => listed(alloc, inside),
        None => Items::new(alloc),
    }
}

/// What stands behind SUBROUTINE. Section 15.6.1.
///
/// # Errors
///
/// A fault of syntax where it is no such form, or want of memory.
#[tactic(auto, unfolding(grammar_laws::specs::FormReading::meant, grammar_laws::specs::FormReading::going_on))]
pub fn subroutine_statement<'a>(
    alloc: Global,
    text: &[Character],
    tokens: &'a [Token],
) -> Result<(Body, &'a [Token]), Failure>
    ensures { Gives (λ p. (p.0, seen text.now p.1.now)) result (reading.subroutine_form (seen text.now tokens.now)) }
{
    let ((name, arguments), rest) = Both::<
        Name,
        Maybe<Enclosed<Maybe<Separated<Either<DummyName, AlternateReturn>>>>>,
    >::read(alloc, text, tokens)?;
    let arguments = arguments_of(alloc, arguments);
    Ok((
        Body::Header(UnitKind::Subroutine, Some(name), arguments),
        rest,
    ))
}

/// Names as dummy arguments.
#[tactic(auto, using(crate::proofs::DeclarationLemmas::mapped_steps))]
fn named(alloc: Global, mut names: Items<Text>) -> Result<Items<DummyArgument>, AllocError>
    ensures { IfOk result (λ made. made ≡ map dummy.Named names) }
{
    match names.pop() {
        Some(name) => pushed(named(alloc, names)?, DummyArgument::Named(name)),
        None => Ok(Items::new(alloc)),
    }
}

/// The statement that begins a function. Section 15.5.1.
#[tactic(auto, unfolding(fortran_grammar::specs::DeclarationForms::function_header))]
fn function_header(
    alloc: Global,
    spec: TypeSpec,
    name: Text,
    arguments: Option<Items<Text>>,
) -> Result<Body, AllocError>
    ensures { IfOk result (λ made. made ≡ meaning.function_header spec (name, arguments)) }
{
    let arguments = named(alloc, listed(alloc, arguments))?;
    Ok(Body::Header(UnitKind::Function(spec), Some(name), arguments))
}

/// The name of a function and its dummy arguments. Section 15.5.1.
type FunctionName = Both<Name, Enclosed<Maybe<Separated<Name>>>>;

/// No type is written.
#[tactic(auto, unfolding(fortran_grammar::specs::DeclarationForms::untyped))]
fn untyped() -> TypeSpec
    ensures { result ≡ meaning.untyped }
{
    TypeSpec {
        basic: Basic::Untyped,
        length: None,
    }
}

/// What stands behind FUNCTION. Section 15.5.1.
///
/// # Errors
///
/// A fault of syntax where it is no such form, or want of memory.
#[tactic(auto, unfolding(grammar_laws::specs::FormReading::meant, grammar_laws::specs::FormReading::going_on))]
pub fn function_statement<'a>(
    alloc: Global,
    text: &[Character],
    tokens: &'a [Token],
) -> Result<(Body, &'a [Token]), Failure>
    ensures { Gives (λ p. (p.0, seen text.now p.1.now)) result (reading.function_form (seen text.now tokens.now)) }
{
    let ((name, arguments), rest) = FunctionName::read(alloc, text, tokens)?;
    Ok((function_header(alloc, untyped(), name, arguments)?, rest))
}

/// The word FUNCTION behind a type.
struct FunctionWord;

#[tactic(auto, unfolding(grammar_laws::specs::FormReading::piece, grammar_laws::specs::FormReading::with_rest, fortran_grammar::specs::Forms::says_first, fortran_grammar::specs::Forms::behind, stmt_lex::specs::SeenTokens::seen, stmt_lex::specs::SeenTokens::lexeme_of, fortran_grammar::specs::DeclarationForms::function_word))]
impl Read for FunctionWord {
    type Found = ();

    ghost reader = { form.piece meaning.function_word };

    fn read<'a>(
        alloc: Global,
        text: &[Character],
        tokens: &'a [Token],
    ) -> Result<((), &'a [Token]), Failure> {
        match tokens {
            [Token::Word(StmtKind::Function), rest @ ..] => Ok(((), rest)),
            _ => Err(Failure::Syntax),
        }
    }
}

/// The names behind a type.
#[tactic(auto, unfolding(grammar_laws::specs::FormReading::meant, grammar_laws::specs::FormReading::going_on))]
fn declare<'a>(
    alloc: Global,
    text: &[Character],
    tokens: &'a [Token],
    spec: TypeSpec,
) -> Result<(Body, &'a [Token]), Failure>
    ensures { Gives (λ p. (p.0, seen text.now p.1.now)) result (form.meant (body.Declare spec) (reading.declared_by spec.basic spec.length) (seen text.now tokens.now)) }
{
    let (names, rest) = declared(alloc, text, tokens, &spec)?;
    Ok((Body::Declare(spec, names), rest))
}

/// What stands behind a type: FUNCTION, or names.
#[tactic(auto, unfolding(grammar_laws::specs::FormReading::meant, grammar_laws::specs::FormReading::going_on, grammar_laws::specs::FormReading::either, grammar_laws::specs::FormReading::otherwise, grammar_laws::specs::DeclarationReading::typed_form))]
fn typed<'a>(
    alloc: Global,
    text: &[Character],
    tokens: &'a [Token],
    spec: TypeSpec,
) -> Result<(Body, &'a [Token]), Failure>
    ensures { Gives (λ p. (p.0, seen text.now p.1.now)) result (reading.typed_form spec (seen text.now tokens.now)) }
{
    match Both::<FunctionWord, FunctionName>::read(alloc, text, tokens) {
        Ok(((_, (name, arguments)), rest)) => {
            Ok((function_header(alloc, spec, name, arguments)?, rest))
        }
        Err(Failure::Syntax) => declare(alloc, text, tokens, spec),
        Err(Failure::NoMemory) => Err(Failure::NoMemory),
    }
}

/// A type statement, or FUNCTION with a type before it. Sections 8.4 and 15.5.1.
///
/// # Errors
///
/// A fault of syntax where it is no such form, or want of memory.
#[tactic(auto, using(crate::proofs::DeclarationLemmas::led_steps), unfolding(grammar_laws::specs::FormReading::meant, grammar_laws::specs::FormReading::going_on, grammar_laws::specs::FormReading::led, grammar_laws::specs::FormReading::paired))]
pub fn type_statement<'a>(
    alloc: Global,
    text: &[Character],
    tokens: &'a [Token],
) -> Result<(Body, &'a [Token]), Failure>
    ensures { Gives (λ p. (p.0, seen text.now p.1.now)) result (reading.type_statement_form (seen text.now tokens.now)) }
{
    let (spec, rest) = TypeName::read(alloc, text, tokens)?;
    typed(alloc, text, rest, spec)
}
