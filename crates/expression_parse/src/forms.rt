//! What stands first in tokens: names, labels, constants, and pieces that are wanted.

ghost use Rattle.std.specs.Prelude.{◌≡◌, ◌∷◌, option_map};
ghost use Rattle.fortran_grammar.specs.Forms.{sort};
ghost use Rattle.grammar_laws.specs.FormReading as form;
ghost use Rattle.fortran_lexemes.specs.PiecesOfText.{codes_of};
ghost use Rattle.stmt_lex.specs.SeenTokens.{seen, lexeme_of, spanned};
ghost use Rattle.expression_parse.specs.Readings.{Gives};
ghost use Rattle.expression_parse.specs.WantedPieces.{sort_of, taken, is_of_sort, is_label};

use super::failure::Failure;
use super::texts::{characters, constant_text, name_text};
use f_tree::BinaryOp;
use fortran_lexemes::Sign;
use fortran_text::Character;
use plain_data::Items;
use std::alloc::Global;
use stmt_lex::{Span, Token};

/// A piece that may be wanted, whatever its text.
#[derive(Clone, Copy, Debug, PartialEq, Eq)]
pub enum Wanted {
    /// `(`
    Open,
    /// `)`
    Close,
    /// `,`
    Comma,
    /// `=`
    Equals,
    /// `:`
    Colon,
    /// `*`
    Star,
    /// `/`
    Slash,
    /// `//`
    TwoSlashes,
    /// `+`
    Plus,
    /// `-`
    Minus,
    /// TO behind the label of an ASSIGN statement
    To,
    /// THEN
    Then,
}

/// Whether a token is the piece that is wanted.
#[tactic(auto, unfolding(crate::specs::WantedPieces::sort_of, crate::specs::WantedPieces::is_of_sort, stmt_lex::specs::SeenTokens::lexeme_of, fortran_grammar::specs::Forms::sort))]
fn is_wanted(text: &[Character], wanted: Wanted, token: Token) -> bool
    ensures { result ≡ is_of_sort (sort_of wanted) (lexeme_of text.now token) }
{
    match wanted {
        Wanted::Open => matches!(token, Token::Mark(Sign::Open)),
        Wanted::Close => matches!(token, Token::Mark(Sign::Close)),
        Wanted::Comma => matches!(token, Token::Mark(Sign::Comma)),
        Wanted::Equals => matches!(token, Token::Mark(Sign::Equals)),
        Wanted::Colon => matches!(token, Token::Mark(Sign::Colon)),
        Wanted::Star => matches!(token, Token::Infix(BinaryOp::Times)),
        Wanted::Slash => matches!(token, Token::Infix(BinaryOp::Divide)),
        Wanted::TwoSlashes => matches!(token, Token::Infix(BinaryOp::Concatenate)),
        Wanted::Plus => matches!(token, Token::Infix(BinaryOp::Plus)),
        Wanted::Minus => matches!(token, Token::Infix(BinaryOp::Minus)),
        Wanted::To => matches!(token, Token::To),
        Wanted::Then => matches!(token, Token::Then),
    }
}

/// The tokens behind the first one, where that is the piece that is wanted.
#[tactic(auto, using(crate::proofs::WantedLemmas::taken_pieces))]
fn taken_first<'a>(
    text: &[Character],
    first: Token,
    rest: &'a [Token],
    wanted: Wanted,
) -> Option<&'a [Token]>
    ensures { option_map (λ rest. seen text.now rest.now) result ≡ taken (sort_of wanted) (seen text.now (first ∷ rest.now)) }
{
    if is_wanted(text, wanted, first) {
        Some(rest)
    } else {
        None
    }
}

/// The tokens behind the piece that is wanted, where it stands first.
#[tactic(auto, using(crate::proofs::WantedLemmas::taken_pieces))]
pub fn taken<'a>(text: &[Character], tokens: &'a [Token], wanted: Wanted) -> Option<&'a [Token]>
    ensures { option_map (λ rest. seen text.now rest.now) result ≡ taken (sort_of wanted) (seen text.now tokens.now) }
{
    match tokens {
        [first, rest @ ..] => taken_first(text, *first, rest, wanted),
        [] => None,
    }
}

/// The name that stands first, and the tokens behind it. Section 2.2.
#[tactic(auto, unfolding(grammar_laws::specs::FormReading::piece, grammar_laws::specs::FormReading::with_rest, fortran_grammar::specs::Forms::says_first, fortran_grammar::specs::Forms::behind, fortran_grammar::specs::Forms::name_of, stmt_lex::specs::SeenTokens::seen, stmt_lex::specs::SeenTokens::lexeme_of))]
pub fn name<'a>(
    alloc: Global,
    text: &[Character],
    tokens: &'a [Token],
) -> Result<(Items<u8>, &'a [Token]), Failure>
    ensures { Gives (λ p. (p.0, seen text.now p.1.now)) result (form.a_name (seen text.now tokens.now)) }
{
    match tokens {
        [Token::Name(span), rest @ ..] => Ok((name_text(alloc, text, *span)?, rest)),
        _ => Err(Failure::Syntax),
    }
}

/// The character constant that stands first, and the tokens behind it. Section 4.8.
#[tactic(auto, unfolding(grammar_laws::specs::FormReading::piece, grammar_laws::specs::FormReading::with_rest, fortran_grammar::specs::Forms::says_first, fortran_grammar::specs::Forms::behind, fortran_grammar::specs::Forms::quoted_of, stmt_lex::specs::SeenTokens::seen, stmt_lex::specs::SeenTokens::lexeme_of))]
pub fn quoted<'a>(
    alloc: Global,
    text: &[Character],
    tokens: &'a [Token],
) -> Result<(Items<u8>, &'a [Token]), Failure>
    ensures { Gives (λ p. (p.0, seen text.now p.1.now)) result (form.a_quoted (seen text.now tokens.now)) }
{
    match tokens {
        [Token::Quoted(span), rest @ ..] => Ok((constant_text(alloc, text, *span)?, rest)),
        _ => Err(Failure::Syntax),
    }
}

/// Whether digits and their value are a statement label: one to five digits, not all zero. Section 3.4.
#[tactic(auto, unfolding(crate::specs::WantedPieces::is_label))]
fn is_label(text: &[Character], span: Span, value: u32) -> bool
    ensures { result ≡ is_label (codes_of (spanned text.now span)) value }
{
    characters(text, span).len() <= 5 && value > 0
}

/// The statement label that stands first, and the tokens behind it. Section 3.4.
#[tactic(auto, unfolding(crate::specs::WantedPieces::is_label, grammar_laws::specs::FormReading::piece, grammar_laws::specs::FormReading::with_rest, fortran_grammar::specs::Forms::says_first, fortran_grammar::specs::Forms::behind, fortran_grammar::specs::Forms::label_of, stmt_lex::specs::SeenTokens::seen, stmt_lex::specs::SeenTokens::lexeme_of))]
pub fn label<'a>(text: &[Character], tokens: &'a [Token]) -> Result<(u32, &'a [Token]), Failure>
    ensures { Gives (λ p. (p.0, seen text.now p.1.now)) result (form.a_label (seen text.now tokens.now)) }
{
    match tokens {
        [Token::Number(span, value), rest @ ..] if is_label(text, *span, *value) => {
            Ok((*value, rest))
        }
        _ => Err(Failure::Syntax),
    }
}

/// The tokens behind the piece that is wanted.
///
/// # Errors
///
/// A fault of syntax where another stands first.
pub fn required<'a>(
    text: &[Character],
    tokens: &'a [Token],
    wanted: Wanted,
) -> Result<&'a [Token], Failure>
    ensures { Gives (λ rest. seen text.now rest.now) result (taken (sort_of wanted) (seen text.now tokens.now)) }
{
    match taken(text, tokens, wanted) {
        Some(rest) => Ok(rest),
        None => Err(Failure::Syntax),
    }
}
