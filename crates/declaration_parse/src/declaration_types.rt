//! Dimensions, lengths and types. Sections 5.1.1.1, 8.1 and 8.4 of the standard, ANSI X3.9-1978.

ghost use Rattle.std.specs.Prelude.{◌≡◌};
ghost use Rattle.f_tree.specs.declared.names.Basic.TheVariants as basic;
ghost use Rattle.f_tree.specs.declared.statements.LengthSpec.TheVariants as length_spec;
ghost use Rattle.f_tree.specs.declared.statements.UpperBound.TheVariants as upper;
ghost use Rattle.fortran_grammar.specs.DeclarationForms as meaning;
ghost use Rattle.fortran_grammar.specs.Forms as sort;
ghost use Rattle.grammar_laws.specs.DeclarationReading as reading;
ghost use Rattle.grammar_laws.specs.ExpressionReading.{read_expression};
ghost use Rattle.grammar_laws.specs.FormReading as form;
ghost use Rattle.grammar_laws.specs.ListReading.{integer_form};
ghost use Rattle.stmt_lex.specs.SeenTokens.{seen};
ghost use Rattle.expression_parse.specs.Readings.{Gives};

use super::declaration_forms::{
    After, Both, Colon, Either, Enclosed, Expression, Maybe, Name, Piece, Read, Star, WithComma,
};
use super::declaration_lists::{Separated, listed};
use expression_parse::Failure;
use f_tree::{
    ArrayDeclarator, Basic, Body, Declarator, Dimension, Expr, LengthSpec, TypeSpec, UpperBound,
};
use fortran_lexemes::StmtKind;
use fortran_text::Character;
use plain_data::Items;
use std::alloc::Global;
use stmt_lex::Token;

/// The greatest integer. Section 4.3.
const GREATEST: u32 = 2_147_483_647;

/// An upper bound that is an expression.
struct BoundValue;

#[tactic(auto, unfolding(grammar_laws::specs::FormReading::meant, grammar_laws::specs::FormReading::going_on))]
impl Read for BoundValue {
    type Found = UpperBound;

    ghost reader = { form.meant upper.Value read_expression };

    fn read<'a>(
        alloc: Global,
        text: &[Character],
        tokens: &'a [Token],
    ) -> Result<(UpperBound, &'a [Token]), Failure> {
        let (found, rest) = Expression::read(alloc, text, tokens)?;
        Ok((UpperBound::Value(found), rest))
    }
}

/// `*` in place of an upper bound.
struct AssumedBound;

#[tactic(auto, using(crate::proofs::DeclarationLemmas::piece_steps), unfolding(grammar_laws::specs::FormReading::said))]
impl Read for AssumedBound {
    type Found = UpperBound;

    ghost reader = { form.after sort.Star (form.said upper.Star) };

    fn read<'a>(
        alloc: Global,
        text: &[Character],
        tokens: &'a [Token],
    ) -> Result<(UpperBound, &'a [Token]), Failure> {
        match Star::behind(text, tokens) {
            Some(rest) => Ok((UpperBound::Star, rest)),
            None => Err(Failure::Syntax),
        }
    }
}

/// An upper bound. Section 5.1.1.1.
type Bound = Either<BoundValue, AssumedBound>;

/// A dimension: one bound is the upper one, two are the lower and the upper one.
#[tactic(auto, unfolding(fortran_grammar::specs::DeclarationForms::dimension_of))]
fn dimension(bound: Expr, above: Option<UpperBound>) -> Dimension
    ensures { result ≡ meaning.dimension_of (bound, above) }
{
    match above {
        None => Dimension {
            lower: None,
            upper: UpperBound::Value(bound),
        },
        Some(upper) => Dimension {
            lower: Some(bound),
            upper,
        },
    }
}

/// A dimension that begins with an expression.
struct Bounds;

#[tactic(auto, unfolding(grammar_laws::specs::FormReading::meant, grammar_laws::specs::FormReading::going_on))]
impl Read for Bounds {
    type Found = Dimension;

    ghost reader = { form.meant meaning.dimension_of (form.both read_expression (form.maybe (form.after sort.Colon reading.bound_form))) };

    fn read<'a>(
        alloc: Global,
        text: &[Character],
        tokens: &'a [Token],
    ) -> Result<(Dimension, &'a [Token]), Failure> {
        let ((bound, above), rest) = Both::<Expression, Maybe<After<Colon, Bound>>>::read(
            alloc, text, tokens,
        )?;
        Ok((dimension(bound, above), rest))
    }
}

/// A dimension that is `*`.
struct AssumedDimension;

#[tactic(auto, unfolding(grammar_laws::specs::FormReading::meant, grammar_laws::specs::FormReading::going_on, fortran_grammar::specs::DeclarationForms::without_lower))]
impl Read for AssumedDimension {
    type Found = Dimension;

    ghost reader = { form.meant meaning.without_lower (form.after sort.Star (form.said upper.Star)) };

    fn read<'a>(
        alloc: Global,
        text: &[Character],
        tokens: &'a [Token],
    ) -> Result<(Dimension, &'a [Token]), Failure> {
        let (upper, rest) = AssumedBound::read(alloc, text, tokens)?;
        Ok((Dimension { lower: None, upper }, rest))
    }
}

/// The dimensions of an array, in parentheses. Section 5.1.1.
pub(super) struct Dimensions;

#[tactic(auto)]
impl Read for Dimensions {
    type Found = Items<Dimension>;

    ghost reader = { reading.dimensions_form };

    fn read<'a>(
        alloc: Global,
        text: &[Character],
        tokens: &'a [Token],
    ) -> Result<(Items<Dimension>, &'a [Token]), Failure> {
        Enclosed::<Separated<Either<Bounds, AssumedDimension>>>::read(alloc, text, tokens)
    }
}

/// An array in a DIMENSION statement.
struct DimensionedArray;

#[tactic(auto, unfolding(grammar_laws::specs::FormReading::meant, grammar_laws::specs::FormReading::going_on, fortran_grammar::specs::DeclarationForms::array_of))]
impl Read for DimensionedArray {
    type Found = ArrayDeclarator;

    ghost reader = { form.meant meaning.array_of (form.both form.a_name reading.dimensions_form) };

    fn read<'a>(
        alloc: Global,
        text: &[Character],
        tokens: &'a [Token],
    ) -> Result<(ArrayDeclarator, &'a [Token]), Failure> {
        let ((name, dimensions), rest) = Both::<Name, Dimensions>::read(alloc, text, tokens)?;
        Ok((ArrayDeclarator { name, dimensions }, rest))
    }
}

/// What stands behind DIMENSION. Section 8.1.
///
/// # Errors
///
/// A fault of syntax where it is no such form, or want of memory.
#[tactic(auto, unfolding(grammar_laws::specs::FormReading::meant, grammar_laws::specs::FormReading::going_on))]
pub fn dimension_statement<'a>(
    alloc: Global,
    text: &[Character],
    tokens: &'a [Token],
) -> Result<(Body, &'a [Token]), Failure>
    ensures { Gives (λ p. (p.0, seen text.now p.1.now)) result (reading.dimension_statement_form (seen text.now tokens.now)) }
{
    let (found, rest) = Separated::<DimensionedArray>::read(alloc, text, tokens)?;
    Ok((Body::Dimension(found), rest))
}

/// An unsigned integer constant. Section 4.3.
struct Integer;

#[tactic(auto, unfolding(grammar_laws::specs::FormReading::meant, grammar_laws::specs::FormReading::going_on, grammar_laws::specs::FormReading::piece, grammar_laws::specs::FormReading::with_rest, fortran_grammar::specs::Forms::says_first, fortran_grammar::specs::Forms::behind, stmt_lex::specs::SeenTokens::seen, stmt_lex::specs::SeenTokens::lexeme_of, fortran_grammar::specs::Forms::number_of))]
impl Read for Integer {
    type Found = Expr;

    ghost reader = { integer_form };

    fn read<'a>(
        alloc: Global,
        text: &[Character],
        tokens: &'a [Token],
    ) -> Result<(Expr, &'a [Token]), Failure> {
        match tokens {
            [Token::Number(_, value), rest @ ..] if *value <= GREATEST => {
                Ok((Expr::Int(*value as i32), rest))
            }
            _ => Err(Failure::Syntax),
        }
    }
}

/// A length that is a number.
struct NumberLength;

#[tactic(auto, unfolding(grammar_laws::specs::FormReading::meant, grammar_laws::specs::FormReading::going_on))]
impl Read for NumberLength {
    type Found = LengthSpec;

    ghost reader = { form.meant length_spec.Value integer_form };

    fn read<'a>(
        alloc: Global,
        text: &[Character],
        tokens: &'a [Token],
    ) -> Result<(LengthSpec, &'a [Token]), Failure> {
        let (found, rest) = Integer::read(alloc, text, tokens)?;
        Ok((LengthSpec::Value(found), rest))
    }
}

/// A length that is an expression.
struct ExpressionLength;

#[tactic(auto, unfolding(grammar_laws::specs::FormReading::meant, grammar_laws::specs::FormReading::going_on))]
impl Read for ExpressionLength {
    type Found = LengthSpec;

    ghost reader = { form.meant length_spec.Value read_expression };

    fn read<'a>(
        alloc: Global,
        text: &[Character],
        tokens: &'a [Token],
    ) -> Result<(LengthSpec, &'a [Token]), Failure> {
        let (found, rest) = Expression::read(alloc, text, tokens)?;
        Ok((LengthSpec::Value(found), rest))
    }
}

/// `*` in place of a length.
struct AssumedLength;

#[tactic(auto, using(crate::proofs::DeclarationLemmas::piece_steps), unfolding(grammar_laws::specs::FormReading::said))]
impl Read for AssumedLength {
    type Found = LengthSpec;

    ghost reader = { form.after sort.Star (form.said length_spec.Star) };

    fn read<'a>(
        alloc: Global,
        text: &[Character],
        tokens: &'a [Token],
    ) -> Result<(LengthSpec, &'a [Token]), Failure> {
        match Star::behind(text, tokens) {
            Some(rest) => Ok((LengthSpec::Star, rest)),
            None => Err(Failure::Syntax),
        }
    }
}

/// A length of character items. Section 8.4.2.
type Length = After<Star, Either<NumberLength, Enclosed<Either<ExpressionLength, AssumedLength>>>>;

/// The word of a type. Section 8.4.
struct TypeWord;

#[tactic(auto, unfolding(grammar_laws::specs::FormReading::piece, grammar_laws::specs::FormReading::with_rest, fortran_grammar::specs::Forms::says_first, fortran_grammar::specs::Forms::behind, stmt_lex::specs::SeenTokens::seen, stmt_lex::specs::SeenTokens::lexeme_of, fortran_grammar::specs::DeclarationForms::type_of))]
impl Read for TypeWord {
    type Found = Basic;

    ghost reader = { form.piece meaning.type_of };

    fn read<'a>(
        alloc: Global,
        text: &[Character],
        tokens: &'a [Token],
    ) -> Result<(Basic, &'a [Token]), Failure> {
        match tokens {
            [Token::Word(StmtKind::Integer), rest @ ..] => Ok((Basic::Integer, rest)),
            [Token::Word(StmtKind::Logical), rest @ ..] => Ok((Basic::Logical, rest)),
            [Token::Word(StmtKind::Character), rest @ ..] => Ok((Basic::Character, rest)),
            _ => Err(Failure::Syntax),
        }
    }
}

/// The length 4 behind INTEGER or LOGICAL.
struct Four;

#[tactic(auto, unfolding(grammar_laws::specs::FormReading::piece, grammar_laws::specs::FormReading::with_rest, fortran_grammar::specs::Forms::says_first, fortran_grammar::specs::Forms::behind, stmt_lex::specs::SeenTokens::seen, stmt_lex::specs::SeenTokens::lexeme_of, fortran_grammar::specs::DeclarationForms::four_of))]
impl Read for Four {
    type Found = Option<LengthSpec>;

    ghost reader = { form.piece meaning.four_of };

    fn read<'a>(
        alloc: Global,
        text: &[Character],
        tokens: &'a [Token],
    ) -> Result<(Option<LengthSpec>, &'a [Token]), Failure> {
        match tokens {
            [Token::Number(_, 4), rest @ ..] => Ok((None, rest)),
            _ => Err(Failure::Syntax),
        }
    }
}

/// Another value in place of what is read.
#[tactic(auto, unfolding(grammar_laws::specs::FormReading::meant, grammar_laws::specs::FormReading::going_on))]
fn in_place<'a, R: Read, T: Drop>(
    alloc: Global,
    text: &[Character],
    tokens: &'a [Token],
    value: T,
) -> Result<(T, &'a [Token]), Failure>
    ensures { Gives (λ p. (p.0, seen text.now p.1.now)) result (form.meant (λ _. value) R.reader (seen text.now tokens.now)) }
{
    let (_, rest) = R::read(alloc, text, tokens)?;
    Ok((value, rest))
}

/// The length 4, or nothing.
struct FourOrNone;

#[tactic(auto, unfolding(grammar_laws::specs::FormReading::meant, grammar_laws::specs::FormReading::going_on, fortran_grammar::specs::DeclarationForms::no_length))]
impl Read for FourOrNone {
    type Found = Option<LengthSpec>;

    ghost reader = { form.meant meaning.no_length (form.maybe (form.after sort.Star (form.piece meaning.four_of))) };

    fn read<'a>(
        alloc: Global,
        text: &[Character],
        tokens: &'a [Token],
    ) -> Result<(Option<LengthSpec>, &'a [Token]), Failure> {
        in_place::<Maybe<After<Star, Four>>, Option<LengthSpec>>(alloc, text, tokens, None)
    }
}

/// The length that may stand behind a type.
#[tactic(auto, unfolding(grammar_laws::specs::DeclarationReading::length_of))]
fn length_of<'a>(
    alloc: Global,
    text: &[Character],
    tokens: &'a [Token],
    basic: Basic,
) -> Result<(Option<LengthSpec>, &'a [Token]), Failure>
    ensures { Gives (λ p. (p.0, seen text.now p.1.now)) result (reading.length_of basic (seen text.now tokens.now)) }
{
    match basic {
        Basic::Character => Maybe::<Length>::read(alloc, text, tokens),
        Basic::Integer | Basic::Logical | Basic::Untyped => FourOrNone::read(alloc, text, tokens),
    }
}

/// A type with its length. Section 8.4.
pub(super) struct TypeName;

#[tactic(auto, unfolding(grammar_laws::specs::FormReading::meant, grammar_laws::specs::FormReading::going_on, grammar_laws::specs::FormReading::led, grammar_laws::specs::FormReading::paired, fortran_grammar::specs::DeclarationForms::spec_of))]
impl Read for TypeName {
    type Found = TypeSpec;

    ghost reader = { reading.type_form };

    fn read<'a>(
        alloc: Global,
        text: &[Character],
        tokens: &'a [Token],
    ) -> Result<(TypeSpec, &'a [Token]), Failure> {
        let (basic, rest) = TypeWord::read(alloc, text, tokens)?;
        let (length, rest) = length_of(alloc, text, rest, basic)?;
        Ok((TypeSpec { basic, length }, rest))
    }
}

/// A name behind CHARACTER. Section 8.4.2.
struct CharacterName;

#[tactic(auto, unfolding(grammar_laws::specs::FormReading::meant, grammar_laws::specs::FormReading::going_on, fortran_grammar::specs::DeclarationForms::declarator_of))]
impl Read for CharacterName {
    type Found = Declarator;

    ghost reader = { reading.character_form };

    fn read<'a>(
        alloc: Global,
        text: &[Character],
        tokens: &'a [Token],
    ) -> Result<(Declarator, &'a [Token]), Failure> {
        let ((name, (dimensions, length)), rest) = Both::<
            Name,
            Both<Maybe<Dimensions>, Maybe<Length>>,
        >::read(alloc, text, tokens)?;
        let dimensions = listed(alloc, dimensions);
        Ok((
            Declarator {
                name,
                dimensions,
                length,
            },
            rest,
        ))
    }
}

/// A name behind another type. Section 8.4.1.
struct DeclaredName;

#[tactic(auto, unfolding(grammar_laws::specs::FormReading::meant, grammar_laws::specs::FormReading::going_on, fortran_grammar::specs::DeclarationForms::without_length))]
impl Read for DeclaredName {
    type Found = Declarator;

    ghost reader = { reading.name_form };

    fn read<'a>(
        alloc: Global,
        text: &[Character],
        tokens: &'a [Token],
    ) -> Result<(Declarator, &'a [Token]), Failure> {
        let ((name, dimensions), rest) = Both::<Name, Maybe<Dimensions>>::read(
            alloc, text, tokens,
        )?;
        let dimensions = listed(alloc, dimensions);
        Ok((
            Declarator {
                name,
                dimensions,
                length: None,
            },
            rest,
        ))
    }
}

/// The names behind CHARACTER; a comma may stand behind its length. Section 8.4.2.
#[tactic(auto, unfolding(grammar_laws::specs::DeclarationReading::declared_by))]
fn character_names<'a>(
    alloc: Global,
    text: &[Character],
    tokens: &'a [Token],
    length: &Option<LengthSpec>,
) -> Result<(Items<Declarator>, &'a [Token]), Failure>
    ensures { Gives (λ p. (p.0, seen text.now p.1.now)) result (reading.declared_by basic.Character length.now (seen text.now tokens.now)) }
{
    match length {
        None => Separated::<CharacterName>::read(alloc, text, tokens),
        Some(_) => WithComma::<Separated<CharacterName>>::read(alloc, text, tokens),
    }
}

/// The names behind a type. Section 8.4.
#[tactic(auto, unfolding(grammar_laws::specs::DeclarationReading::declared_by))]
pub(super) fn declared<'a>(
    alloc: Global,
    text: &[Character],
    tokens: &'a [Token],
    spec: &TypeSpec,
) -> Result<(Items<Declarator>, &'a [Token]), Failure>
    ensures { Gives (λ p. (p.0, seen text.now p.1.now)) result (reading.declared_by spec.now.basic spec.now.length (seen text.now tokens.now)) }
{
    match spec.basic {
        Basic::Character => character_names(alloc, text, tokens, &spec.length),
        Basic::Integer | Basic::Logical | Basic::Untyped => {
            Separated::<DeclaredName>::read(alloc, text, tokens)
        }
    }
}
