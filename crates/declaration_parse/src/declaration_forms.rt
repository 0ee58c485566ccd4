//! Forms put together, read from tokens.

ghost use Rattle.std.specs.Prelude.{◌≡◌, Option, option_map};
ghost use Rattle.fortran_grammar.specs.Forms.{Sort};
ghost use Rattle.fortran_grammar.specs.Forms as sort;
ghost use Rattle.fortran_lexemes.specs.Lexemes.{Lexemes};
ghost use Rattle.grammar_laws.specs.ExpressionReading.{read_expression, read_place};
ghost use Rattle.grammar_laws.specs.FormReading as form;
ghost use Rattle.stmt_lex.specs.SeenTokens.{seen};
ghost use Rattle.expression_parse.specs.Readings.{Gives};
ghost use Rattle.expression_parse.specs.WantedPieces.{taken};

use expression_parse::{Failure, Wanted, name, read_expression, read_place, taken};
use f_tree::{Expr, Text};
use fortran_text::Character;
use std::alloc::Global;
use std::marker::PhantomData;
use stmt_lex::Token;

/// What can be read where it stands first in tokens.
pub(super) trait Read {
    /// What is read.
    type Found: Drop;

    ghost reader: { Lexemes → Option (Self.Found × Lexemes) };

    /// What stands first, and the tokens behind it.
    fn read<'a>(
        alloc: Global,
        text: &[Character],
        tokens: &'a [Token],
    ) -> Result<(Self::Found, &'a [Token]), Failure>
        ensures { Gives (λ p. (p.0, seen text.now p.1.now)) result (reader (seen text.now tokens.now)) };
}

/// A piece that may be wanted, whatever its text.
pub(super) trait Piece {
    ghost kind: { Sort };

    /// The tokens behind the piece, where it stands first.
    fn behind<'a>(text: &[Character], tokens: &'a [Token]) -> Option<&'a [Token]>
        ensures { option_map (λ rest. seen text.now rest.now) result ≡ taken kind (seen text.now tokens.now) };
}

/// `(`
pub(super) struct Open;

#[tactic(auto, unfolding(expression_parse::specs::WantedPieces::sort_of))]
impl Piece for Open {
    ghost kind = { sort.Open };

    fn behind<'a>(text: &[Character], tokens: &'a [Token]) -> Option<&'a [Token]> {
        taken(text, tokens, Wanted::Open)
    }
}

/// `)`
pub(super) struct Close;

#[tactic(auto, unfolding(expression_parse::specs::WantedPieces::sort_of))]
impl Piece for Close {
    ghost kind = { sort.Close };

    fn behind<'a>(text: &[Character], tokens: &'a [Token]) -> Option<&'a [Token]> {
        taken(text, tokens, Wanted::Close)
    }
}

/// `,`
pub(super) struct Comma;

#[tactic(auto, unfolding(expression_parse::specs::WantedPieces::sort_of))]
impl Piece for Comma {
    ghost kind = { sort.Comma };

    fn behind<'a>(text: &[Character], tokens: &'a [Token]) -> Option<&'a [Token]> {
        taken(text, tokens, Wanted::Comma)
    }
}

/// `=`
pub(super) struct Equals;

#[tactic(auto, unfolding(expression_parse::specs::WantedPieces::sort_of))]
impl Piece for Equals {
    ghost kind = { sort.Equals };

    fn behind<'a>(text: &[Character], tokens: &'a [Token]) -> Option<&'a [Token]> {
        taken(text, tokens, Wanted::Equals)
    }
}

/// `:`
pub(super) struct Colon;

#[tactic(auto, unfolding(expression_parse::specs::WantedPieces::sort_of))]
impl Piece for Colon {
    ghost kind = { sort.Colon };

    fn behind<'a>(text: &[Character], tokens: &'a [Token]) -> Option<&'a [Token]> {
        taken(text, tokens, Wanted::Colon)
    }
}

/// `*`
pub(super) struct Star;

#[tactic(auto, unfolding(expression_parse::specs::WantedPieces::sort_of))]
impl Piece for Star {
    ghost kind = { sort.Star };

    fn behind<'a>(text: &[Character], tokens: &'a [Token]) -> Option<&'a [Token]> {
        taken(text, tokens, Wanted::Star)
    }
}

/// `/`
pub(super) struct Slash;

#[tactic(auto, unfolding(expression_parse::specs::WantedPieces::sort_of))]
impl Piece for Slash {
    ghost kind = { sort.Slash };

    fn behind<'a>(text: &[Character], tokens: &'a [Token]) -> Option<&'a [Token]> {
        taken(text, tokens, Wanted::Slash)
    }
}

/// `//`
pub(super) struct TwoSlashes;

#[tactic(auto, unfolding(expression_parse::specs::WantedPieces::sort_of))]
impl Piece for TwoSlashes {
    ghost kind = { sort.TwoSlashes };

    fn behind<'a>(text: &[Character], tokens: &'a [Token]) -> Option<&'a [Token]> {
        taken(text, tokens, Wanted::TwoSlashes)
    }
}

/// `-`
pub(super) struct Minus;

#[tactic(auto, unfolding(expression_parse::specs::WantedPieces::sort_of))]
impl Piece for Minus {
    ghost kind = { sort.Minus };

    fn behind<'a>(text: &[Character], tokens: &'a [Token]) -> Option<&'a [Token]> {
        taken(text, tokens, Wanted::Minus)
    }
}

/// A name. Section 2.2.
pub(super) struct Name;

impl Read for Name {
    type Found = Text;

    ghost reader = { form.a_name };

    fn read<'a>(
        alloc: Global,
        text: &[Character],
        tokens: &'a [Token],
    ) -> Result<(Text, &'a [Token]), Failure> {
        name(alloc, text, tokens)
    }
}

/// An expression. Section 6.
pub(super) struct Expression;

impl Read for Expression {
    type Found = Expr;

    ghost reader = { read_expression };

    fn read<'a>(
        alloc: Global,
        text: &[Character],
        tokens: &'a [Token],
    ) -> Result<(Expr, &'a [Token]), Failure> {
        read_expression(alloc, text, tokens)
    }
}

/// A variable, an array, an element or a substring. Sections 5.3 and 5.7.
pub(super) struct Place;

impl Read for Place {
    type Found = Expr;

    ghost reader = { read_place };

    fn read<'a>(
        alloc: Global,
        text: &[Character],
        tokens: &'a [Token],
    ) -> Result<(Expr, &'a [Token]), Failure> {
        read_place(alloc, text, tokens)
    }
}

/// What stands behind a piece.
pub(super) struct After<P, R>(PhantomData<P>, PhantomData<R>);

#[tactic(auto, using(crate::proofs::DeclarationLemmas::piece_steps))]
impl<P: Piece, R: Read> Read for After<P, R> {
    type Found = R::Found;

    ghost reader = { form.after P.kind R.reader };

    fn read<'a>(
        alloc: Global,
        text: &[Character],
        tokens: &'a [Token],
    ) -> Result<(R::Found, &'a [Token]), Failure> {
        match P::behind(text, tokens) {
            Some(rest) => R::read(alloc, text, rest),
            None => Err(Failure::Syntax),
        }
    }
}

/// A form and a piece behind it.
pub(super) struct UpTo<R, P>(PhantomData<R>, PhantomData<P>);

#[tactic(auto, using(crate::proofs::DeclarationLemmas::piece_steps), unfolding(grammar_laws::specs::FormReading::up_to, grammar_laws::specs::FormReading::going_on))]
impl<R: Read, P: Piece> Read for UpTo<R, P> {
    type Found = R::Found;

    ghost reader = { form.up_to R.reader P.kind };

    fn read<'a>(
        alloc: Global,
        text: &[Character],
        tokens: &'a [Token],
    ) -> Result<(R::Found, &'a [Token]), Failure> {
        let (found, rest) = R::read(alloc, text, tokens)?;
        match P::behind(text, rest) {
            Some(rest) => Ok((found, rest)),
            None => Err(Failure::Syntax),
        }
    }
}

/// A form in parentheses.
pub(super) struct Enclosed<R>(PhantomData<R>);

#[tactic(auto, unfolding(grammar_laws::specs::FormReading::enclosed))]
impl<R: Read> Read for Enclosed<R> {
    type Found = R::Found;

    ghost reader = { form.enclosed R.reader };

    fn read<'a>(
        alloc: Global,
        text: &[Character],
        tokens: &'a [Token],
    ) -> Result<(R::Found, &'a [Token]), Failure> {
        After::<Open, UpTo<R, Close>>::read(alloc, text, tokens)
    }
}

/// Two forms, one behind the other.
pub(super) struct Both<R, S>(PhantomData<R>, PhantomData<S>);

#[tactic(auto, unfolding(grammar_laws::specs::FormReading::both, grammar_laws::specs::FormReading::going_on, grammar_laws::specs::FormReading::paired))]
impl<R: Read, S: Read> Read for Both<R, S> {
    type Found = (R::Found, S::Found);

    ghost reader = { form.both R.reader S.reader };

    fn read<'a>(
        alloc: Global,
        text: &[Character],
        tokens: &'a [Token],
    ) -> Result<((R::Found, S::Found), &'a [Token]), Failure> {
        let (first, rest) = R::read(alloc, text, tokens)?;
        let (second, rest) = S::read(alloc, text, rest)?;
        Ok(((first, second), rest))
    }
}

/// A form, or nothing.
pub(super) struct Maybe<R>(PhantomData<R>);

#[tactic(auto, unfolding(grammar_laws::specs::FormReading::maybe, grammar_laws::specs::FormReading::maybe_read))]
impl<R: Read> Read for Maybe<R> {
    type Found = Option<R::Found>;

    ghost reader = { form.maybe R.reader };

    fn read<'a>(
        alloc: Global,
        text: &[Character],
        tokens: &'a [Token],
    ) -> Result<(Option<R::Found>, &'a [Token]), Failure> {
        match R::read(alloc, text, tokens) {
            Ok((found, rest)) => Ok((Some(found), rest)),
            Err(Failure::Syntax) => Ok((None, tokens)),
            Err(Failure::NoMemory) => Err(Failure::NoMemory),
        }
    }
}

/// One form, or the other.
pub(super) struct Either<R, S>(PhantomData<R>, PhantomData<S>);

#[tactic(auto, unfolding(grammar_laws::specs::FormReading::either, grammar_laws::specs::FormReading::otherwise))]
impl<R: Read, S: Read<Found = R::Found>> Read for Either<R, S> {
    type Found = R::Found;

    ghost reader = { form.either R.reader S.reader };

    fn read<'a>(
        alloc: Global,
        text: &[Character],
        tokens: &'a [Token],
    ) -> Result<(R::Found, &'a [Token]), Failure> {
        match R::read(alloc, text, tokens) {
            Ok(found) => Ok(found),
            Err(Failure::Syntax) => S::read(alloc, text, tokens),
            Err(Failure::NoMemory) => Err(Failure::NoMemory),
        }
    }
}

/// A form with a comma before it, or without one.
pub(super) struct WithComma<R>(PhantomData<R>);

#[tactic(auto, unfolding(grammar_laws::specs::FormReading::with_comma))]
impl<R: Read> Read for WithComma<R> {
    type Found = R::Found;

    ghost reader = { form.with_comma R.reader };

    fn read<'a>(
        alloc: Global,
        text: &[Character],
        tokens: &'a [Token],
    ) -> Result<(R::Found, &'a [Token]), Failure> {
        Either::<After<Comma, R>, R>::read(alloc, text, tokens)
    }
}
