//! The rows F12 to F17 by which the tokens of a statement are refused. Sections 2.2, 4.3, 4.8, 8.4, 11 and 12.

ghost use Rattle.std.specs.Prelude.{◌≡◌, ◌+◌, ◌<◌, ◌≤◌, ◌^◌, ◌∷◌, length, drop};
ghost use Rattle.std.specs.Str.{bytes_eq};
ghost use Rattle.fortran_lexemes.specs.PiecesOfText.{codes_of, undoubled};
ghost use Rattle.fortran_lexemes.specs.LexicalRows.{is_too_large, has_too_large, is_long_name, has_long_name, is_bad_quote, has_bad_quote, is_other_type, is_point, is_number, is_other_length, is_times, is_sized_type, first_is, begins_other_type, has_other_type, is_other_statement, takes_controls, is_equals, is_named, is_constant, is_quoted, ends_control, is_other_specifier, takes_word, is_status, is_property, is_blank_word, is_word_of_open, is_word_of_close, is_word_of, is_other_word, is_other_control, depth_after, has_other_control, is_opening, has_other_controls, begins_other_control, has_other_statement, is_deeper, is_too_deep, first_lexical_row};
ghost use Rattle.stmt_lex.specs.SeenTokens.{lexeme_of, seen, spanned};

use crate::classes::is_mark;
use crate::token::{Span, Token};
use f_tree::{BinaryOp, Kind};
use fortran_lexemes::{Sign, StmtKind};
use fortran_text::Character;

/// The most parentheses that may be open.
const DEEPEST: usize = 64;

/// Whether a token is a number past the greatest integer.
#[tactic(auto, unfolding(fortran_lexemes::specs::LexicalRows::is_too_large, crate::specs::SeenTokens::lexeme_of))]
fn is_too_large(text: &[Character], token: Token) -> bool
    ensures { result ≡ is_too_large (lexeme_of text.now token) }
{
    match token {
        Token::TooLarge => true,
        _ => false,
    }
}

/// Whether a number past the greatest integer stands among tokens.
#[tactic(auto, unfolding(fortran_lexemes::specs::LexicalRows::has_too_large, crate::specs::SeenTokens::seen))]
fn has_too_large(text: &[Character], tokens: &[Token]) -> bool
    ensures { result ≡ has_too_large (seen text.now tokens.now) }
{
    let [token, rest @ ..] = tokens else {
        return false;
    };
    is_too_large(text, *token) || has_too_large(text, rest)
}

/// Whether a token is a name of more than 31 characters.
#[tactic(auto, unfolding(fortran_lexemes::specs::LexicalRows::is_long_name, crate::specs::SeenTokens::lexeme_of))]
fn is_long_name(text: &[Character], token: Token) -> bool
    ensures { result ≡ is_long_name (lexeme_of text.now token) }
{
    match token {
        Token::LongName => true,
        _ => false,
    }
}

/// Whether a name of more than 31 characters stands among tokens.
#[tactic(auto, unfolding(fortran_lexemes::specs::LexicalRows::has_long_name, crate::specs::SeenTokens::seen))]
fn has_long_name(text: &[Character], tokens: &[Token]) -> bool
    ensures { result ≡ has_long_name (seen text.now tokens.now) }
{
    let [token, rest @ ..] = tokens else {
        return false;
    };
    is_long_name(text, *token) || has_long_name(text, rest)
}

/// Whether a token is a constant that is empty or not closed.
#[tactic(auto, unfolding(fortran_lexemes::specs::LexicalRows::is_bad_quote, crate::specs::SeenTokens::lexeme_of))]
fn is_bad_quote(text: &[Character], token: Token) -> bool
    ensures { result ≡ is_bad_quote (lexeme_of text.now token) }
{
    match token {
        Token::BadQuote => true,
        _ => false,
    }
}

/// Whether a constant that is empty or not closed stands among tokens.
#[tactic(auto, unfolding(fortran_lexemes::specs::LexicalRows::has_bad_quote, crate::specs::SeenTokens::seen))]
fn has_bad_quote(text: &[Character], tokens: &[Token]) -> bool
    ensures { result ≡ has_bad_quote (seen text.now tokens.now) }
{
    let [token, rest @ ..] = tokens else {
        return false;
    };
    is_bad_quote(text, *token) || has_bad_quote(text, rest)
}

/// Whether a token is the word of a type that is not supported.
#[tactic(auto, unfolding(fortran_lexemes::specs::LexicalRows::is_other_type, crate::specs::SeenTokens::lexeme_of))]
fn is_other_type(text: &[Character], token: Token) -> bool
    ensures { result ≡ is_other_type (lexeme_of text.now token) }
{
    match token {
        Token::Word(StmtKind::Real | StmtKind::DoublePrecision | StmtKind::Complex) => true,
        _ => false,
    }
}

/// Whether a token is a point that belongs to no operator.
#[tactic(auto, unfolding(fortran_lexemes::specs::LexicalRows::is_point, crate::specs::SeenTokens::lexeme_of))]
fn is_point(text: &[Character], token: Token) -> bool
    ensures { result ≡ is_point (lexeme_of text.now token) }
{
    match token {
        Token::Mark(Sign::Point) => true,
        _ => false,
    }
}

/// Whether a token is a number.
#[tactic(auto, unfolding(fortran_lexemes::specs::LexicalRows::is_number, crate::specs::SeenTokens::lexeme_of))]
fn is_number(text: &[Character], token: Token) -> bool
    ensures { result ≡ is_number (lexeme_of text.now token) }
{
    match token {
        Token::Number(..) => true,
        _ => false,
    }
}

/// Whether a token is `*`.
#[tactic(auto, unfolding(fortran_lexemes::specs::LexicalRows::is_times, crate::specs::SeenTokens::lexeme_of))]
fn is_times(text: &[Character], token: Token) -> bool
    ensures { result ≡ is_times (lexeme_of text.now token) }
{
    match token {
        Token::Infix(BinaryOp::Times) => true,
        _ => false,
    }
}

/// Whether a token is the word of a type that takes the length 4.
#[tactic(auto, unfolding(fortran_lexemes::specs::LexicalRows::is_sized_type, crate::specs::SeenTokens::lexeme_of))]
fn is_sized_type(text: &[Character], token: Token) -> bool
    ensures { result ≡ is_sized_type (lexeme_of text.now token) }
{
    match token {
        Token::Word(StmtKind::Integer | StmtKind::Logical) => true,
        _ => false,
    }
}

/// Whether a token is the word of a statement that is not supported.
#[tactic(auto, unfolding(fortran_lexemes::specs::LexicalRows::is_other_statement, crate::specs::SeenTokens::lexeme_of))]
fn is_other_statement(text: &[Character], token: Token) -> bool
    ensures { result ≡ is_other_statement (lexeme_of text.now token) }
{
    match token {
        Token::Word(StmtKind::Inquire | StmtKind::Namelist | StmtKind::Pause) => true,
        _ => false,
    }
}

/// Whether a token is `=`.
#[tactic(auto, unfolding(fortran_lexemes::specs::LexicalRows::is_equals, crate::specs::SeenTokens::lexeme_of))]
fn is_equals(text: &[Character], token: Token) -> bool
    ensures { result ≡ is_equals (lexeme_of text.now token) }
{
    match token {
        Token::Mark(Sign::Equals) => true,
        _ => false,
    }
}

/// Whether a token is a constant.
#[tactic(auto, unfolding(fortran_lexemes::specs::LexicalRows::is_quoted, crate::specs::SeenTokens::lexeme_of))]
fn is_quoted(text: &[Character], token: Token) -> bool
    ensures { result ≡ is_quoted (lexeme_of text.now token) }
{
    match token {
        Token::Quoted(_) => true,
        _ => false,
    }
}

/// Whether a token is what ends a control.
#[tactic(auto, unfolding(fortran_lexemes::specs::LexicalRows::ends_control, crate::specs::SeenTokens::lexeme_of))]
fn ends_control(text: &[Character], token: Token) -> bool
    ensures { result ≡ ends_control (lexeme_of text.now token) }
{
    match token {
        Token::Mark(Sign::Comma | Sign::Close) => true,
        _ => false,
    }
}

/// Whether a token is `(`.
#[tactic(auto, unfolding(fortran_lexemes::specs::LexicalRows::is_opening, crate::specs::SeenTokens::lexeme_of))]
fn is_opening(text: &[Character], token: Token) -> bool
    ensures { result ≡ is_opening (lexeme_of text.now token) }
{
    match token {
        Token::Mark(Sign::Open) => true,
        _ => false,
    }
}

/// Whether a token is a number other than 4.
#[tactic(auto, unfolding(fortran_lexemes::specs::LexicalRows::is_other_length, crate::specs::SeenTokens::lexeme_of))]
fn is_other_length(text: &[Character], token: Token) -> bool
    ensures { result ≡ is_other_length (lexeme_of text.now token) }
{
    match token {
        Token::Number(_, value) => value != 4,
        _ => false,
    }
}

/// Whether the first token is such a point.
#[tactic(auto, unfolding(fortran_lexemes::specs::LexicalRows::first_is, crate::specs::SeenTokens::seen))]
fn first_is_point(text: &[Character], tokens: &[Token]) -> bool
    ensures { result ≡ first_is is_point (seen text.now tokens.now) }
{
    match tokens {
        [token, ..] => is_point(text, *token),
        [] => false,
    }
}

/// Whether the first token is a number.
#[tactic(auto, unfolding(fortran_lexemes::specs::LexicalRows::first_is, crate::specs::SeenTokens::seen))]
fn first_is_number(text: &[Character], tokens: &[Token]) -> bool
    ensures { result ≡ first_is is_number (seen text.now tokens.now) }
{
    match tokens {
        [token, ..] => is_number(text, *token),
        [] => false,
    }
}

/// Whether the first token is `*`.
#[tactic(auto, unfolding(fortran_lexemes::specs::LexicalRows::first_is, crate::specs::SeenTokens::seen))]
fn first_is_times(text: &[Character], tokens: &[Token]) -> bool
    ensures { result ≡ first_is is_times (seen text.now tokens.now) }
{
    match tokens {
        [token, ..] => is_times(text, *token),
        [] => false,
    }
}

/// Whether the first token is a number other than 4.
#[tactic(auto, unfolding(fortran_lexemes::specs::LexicalRows::first_is, crate::specs::SeenTokens::seen))]
fn first_is_other_length(text: &[Character], tokens: &[Token]) -> bool
    ensures { result ≡ first_is is_other_length (seen text.now tokens.now) }
{
    match tokens {
        [token, ..] => is_other_length(text, *token),
        [] => false,
    }
}

/// Whether the first token is `=`.
#[tactic(auto, unfolding(fortran_lexemes::specs::LexicalRows::first_is, crate::specs::SeenTokens::seen))]
fn first_is_equals(text: &[Character], tokens: &[Token]) -> bool
    ensures { result ≡ first_is is_equals (seen text.now tokens.now) }
{
    match tokens {
        [token, ..] => is_equals(text, *token),
        [] => false,
    }
}

/// Whether the first token is what ends a control.
#[tactic(auto, unfolding(fortran_lexemes::specs::LexicalRows::first_is, crate::specs::SeenTokens::seen))]
fn first_ends_control(text: &[Character], tokens: &[Token]) -> bool
    ensures { result ≡ first_is ends_control (seen text.now tokens.now) }
{
    match tokens {
        [token, ..] => ends_control(text, *token),
        [] => false,
    }
}

/// Whether the first token is `(`.
#[tactic(auto, unfolding(fortran_lexemes::specs::LexicalRows::first_is, crate::specs::SeenTokens::seen))]
fn first_is_opening(text: &[Character], tokens: &[Token]) -> bool
    ensures { result ≡ first_is is_opening (seen text.now tokens.now) }
{
    match tokens {
        [token, ..] => is_opening(text, *token),
        [] => false,
    }
}

/// The tokens behind the first one.
#[tactic(auto, unfolding(crate::specs::SeenTokens::seen))]
fn behind<'a>(text: &[Character], tokens: &'a [Token]) -> &'a [Token]
    ensures value { seen text.now result.now ≡ drop 1 (seen text.now tokens.now) }
    ensures within { length result.now ≤ length tokens.now }
{
    match tokens {
        [_, rest @ ..] => rest,
        [] => tokens,
    }
}

/// Whether a type that is not supported stands at a token, by the tokens behind it.
#[tactic(auto, unfolding(fortran_lexemes::specs::LexicalRows::begins_other_type))]
fn begins_other_type(text: &[Character], token: Token, rest: &[Token]) -> bool
    ensures { result ≡ begins_other_type (lexeme_of text.now token) (seen text.now rest.now) }
{
    is_other_type(text, token)
        || (is_number(text, token) && first_is_point(text, rest))
        || (is_point(text, token) && first_is_number(text, rest))
        || (is_sized_type(text, token)
            && first_is_times(text, rest)
            && first_is_other_length(text, behind(text, rest)))
}

/// Whether a type that is not supported stands among tokens.
#[tactic(auto, unfolding(fortran_lexemes::specs::LexicalRows::has_other_type, crate::specs::SeenTokens::seen))]
fn has_other_type(text: &[Character], tokens: &[Token]) -> bool
    ensures { result ≡ has_other_type (seen text.now tokens.now) }
{
    let [token, rest @ ..] = tokens else {
        return false;
    };
    begins_other_type(text, *token, rest) || has_other_type(text, rest)
}

/// How many parentheses are open behind a token.
#[tactic(auto, unfolding(fortran_lexemes::specs::LexicalRows::depth_after, crate::specs::SeenTokens::lexeme_of))]
fn depth_after(text: &[Character], depth: usize, token: Token) -> usize
    requires { depth < 2 ^ 63 }
    ensures value { result ≡ depth_after depth (lexeme_of text.now token) }
    ensures within { result ≤ depth + 1 }
{
    match token {
        Token::Mark(Sign::Open) => depth + 1,
        Token::Mark(Sign::Close) => depth.saturating_sub(1),
        _ => depth,
    }
}

/// Whether more parentheses than may be are open somewhere, where so many are open at the beginning.
#[tactic(auto, using(crate::proofs::RowLemmas::deep_here), unfolding(fortran_lexemes::specs::LexicalRows::is_deeper, crate::specs::SeenTokens::seen))]
fn is_deeper(text: &[Character], depth: usize, tokens: &[Token]) -> bool
    ensures { result ≡ is_deeper depth (seen text.now tokens.now) }
{
    if depth > DEEPEST {
        return true;
    }
    let [token, rest @ ..] = tokens else {
        return false;
    };
    is_deeper(text, depth_after(text, depth, *token), rest)
}

/// The characters of a span.
fn spanned(text: &[Character], span: Span) -> &[Character]
    ensures { result.now ≡ spanned text.now span }
{
    let rest = if span.from <= text.len() {
        &text[span.from..]
    } else {
        &[]
    };
    if span.len <= rest.len() {
        &rest[..span.len]
    } else {
        rest
    }
}

/// Whether the codes of characters are a word.
fn codes_are(text: &[Character], word: &[u8]) -> bool
    ensures { result ≡ bytes_eq (codes_of text.now) word.now }
{
    let [c, rest @ ..] = text else {
        return word.is_empty();
    };
    let [code, more @ ..] = word else {
        return false;
    };
    c.code == *code && codes_are(rest, more)
}

/// Whether the text of a constant is a word.
#[tactic(auto, unfolding(fortran_lexemes::specs::PiecesOfText::undoubled))]
fn undoubled_is(text: &[Character], word: &[u8]) -> bool
    ensures { result ≡ bytes_eq (undoubled text.now) word.now }
{
    let [c, rest @ ..] = text else {
        return word.is_empty();
    };
    let [d, behind @ ..] = rest else {
        return codes_are(text, word);
    };
    let [code, more @ ..] = word else {
        return false;
    };
    if is_mark(b'\'', *c) && is_mark(b'\'', *d) {
        return *code == b'\'' && undoubled_is(behind, more);
    }
    c.code == *code && undoubled_is(rest, more)
}

/// Whether a token is this name.
#[tactic(auto, unfolding(fortran_lexemes::specs::LexicalRows::is_named, crate::specs::SeenTokens::lexeme_of))]
fn is_named(text: &[Character], word: &[u8], token: Token) -> bool
    ensures { result ≡ is_named word.now (lexeme_of text.now token) }
{
    match token {
        Token::Name(span) => codes_are(spanned(text, span), word),
        _ => false,
    }
}

/// Whether a token is this constant.
#[tactic(auto, unfolding(fortran_lexemes::specs::LexicalRows::is_constant, crate::specs::SeenTokens::lexeme_of))]
fn is_constant(text: &[Character], word: &[u8], token: Token) -> bool
    ensures { result ≡ is_constant word.now (lexeme_of text.now token) }
{
    match token {
        Token::Quoted(span) => undoubled_is(spanned(text, span), word),
        _ => false,
    }
}

/// Whether a token is the name of a specifier that is not supported.
#[tactic(auto, unfolding(fortran_lexemes::specs::LexicalRows::is_other_specifier))]
fn is_other_specifier(text: &[Character], token: Token) -> bool
    ensures { result ≡ is_other_specifier (lexeme_of text.now token) }
{
    is_named(text, b"rec", token) || is_named(text, b"recl", token) || is_named(text, b"nml", token)
}

/// Whether a token is the name of a specifier that takes a word.
#[tactic(auto, unfolding(fortran_lexemes::specs::LexicalRows::takes_word))]
fn takes_word(text: &[Character], token: Token) -> bool
    ensures { result ≡ takes_word (lexeme_of text.now token) }
{
    is_named(text, b"status", token)
        || is_named(text, b"access", token)
        || is_named(text, b"form", token)
        || is_named(text, b"blank", token)
}

/// Whether a constant is a word of STATUS in OPEN.
#[tactic(auto, unfolding(fortran_lexemes::specs::LexicalRows::is_status))]
fn is_status(text: &[Character], name: Token, word: Token) -> bool
    ensures { result ≡ is_status (lexeme_of text.now name) (lexeme_of text.now word) }
{
    is_named(text, b"status", name)
        && (is_constant(text, b"OLD", word)
            || is_constant(text, b"NEW", word)
            || is_constant(text, b"UNKNOWN", word))
}

/// Whether a constant is the word of ACCESS or FORM in OPEN.
#[tactic(auto, unfolding(fortran_lexemes::specs::LexicalRows::is_property))]
fn is_property(text: &[Character], name: Token, word: Token) -> bool
    ensures { result ≡ is_property (lexeme_of text.now name) (lexeme_of text.now word) }
{
    (is_named(text, b"access", name) && is_constant(text, b"SEQUENTIAL", word))
        || (is_named(text, b"form", name) && is_constant(text, b"FORMATTED", word))
}

/// Whether a constant is a word of BLANK in OPEN.
#[tactic(auto, unfolding(fortran_lexemes::specs::LexicalRows::is_blank_word))]
fn is_blank_word(text: &[Character], name: Token, word: Token) -> bool
    ensures { result ≡ is_blank_word (lexeme_of text.now name) (lexeme_of text.now word) }
{
    is_named(text, b"blank", name)
        && (is_constant(text, b"NULL", word) || is_constant(text, b"ZERO", word))
}

/// Whether a constant is a word of STATUS in CLOSE.
fn is_word_of_close(text: &[Character], name: Token, word: Token) -> bool
    ensures { result ≡ is_word_of_close (lexeme_of text.now name) (lexeme_of text.now word) }
{
    is_named(text, b"status", name) && is_constant(text, b"KEEP", word)
}

/// Whether a constant is a word of a specifier in OPEN.
fn is_word_of_open(text: &[Character], name: Token, word: Token) -> bool
    ensures { result ≡ is_word_of_open (lexeme_of text.now name) (lexeme_of text.now word) }
{
    is_status(text, name, word) || is_property(text, name, word) || is_blank_word(text, name, word)
}

/// Whether a constant is a word of a specifier in a statement of a kind.
#[tactic(auto, unfolding(fortran_lexemes::specs::LexicalRows::is_word_of))]
fn is_word_of(text: &[Character], kind: StmtKind, name: Token, word: Token) -> bool
    ensures { result ≡ is_word_of kind (lexeme_of text.now name) (lexeme_of text.now word) }
{
    match kind {
        StmtKind::OpenUnit => is_word_of_open(text, name, word),
        StmtKind::Close => is_word_of_close(text, name, word),
        _ => false,
    }
}

/// Whether a constant alone stands first that is none of the words of a specifier.
#[tactic(auto, unfolding(fortran_lexemes::specs::LexicalRows::is_other_word, crate::specs::SeenTokens::seen))]
fn is_other_word(text: &[Character], kind: StmtKind, name: Token, tokens: &[Token]) -> bool
    ensures { result ≡ is_other_word kind (lexeme_of text.now name) (seen text.now tokens.now) }
{
    let [word, rest @ ..] = tokens else {
        return false;
    };
    is_quoted(text, *word) && first_ends_control(text, rest) && !is_word_of(text, kind, name, *word)
}

/// Whether a control that is not supported begins with a token.
#[tactic(auto, unfolding(fortran_lexemes::specs::LexicalRows::is_other_control))]
fn is_other_control(text: &[Character], kind: StmtKind, token: Token, rest: &[Token]) -> bool
    ensures { result ≡ is_other_control kind (lexeme_of text.now token) (seen text.now rest.now) }
{
    first_is_equals(text, rest)
        && (is_other_specifier(text, token)
            || (takes_word(text, token) && is_other_word(text, kind, token, behind(text, rest))))
}

/// Whether a control that is not supported stands in a list of controls, from a place where so many parentheses are open.
#[tactic(auto, unfolding(fortran_lexemes::specs::LexicalRows::has_other_control, crate::specs::SeenTokens::seen))]
fn has_other_control(text: &[Character], kind: StmtKind, depth: usize, tokens: &[Token]) -> bool
    requires { depth + length tokens.now < 2 ^ 63 }
    ensures { result ≡ has_other_control kind depth (seen text.now tokens.now) }
{
    let [token, rest @ ..] = tokens else {
        return false;
    };
    if depth == 0 {
        return false;
    }
    (depth == 1 && is_other_control(text, kind, *token, rest))
        || has_other_control(text, kind, depth_after(text, depth, *token), rest)
}

/// Whether a statement of a kind has a list of controls.
#[tactic(auto, unfolding(fortran_lexemes::specs::LexicalRows::takes_controls))]
fn takes_controls(kind: StmtKind) -> bool
    ensures { result ≡ takes_controls kind }
{
    match kind {
        StmtKind::Read
        | StmtKind::Write
        | StmtKind::OpenUnit
        | StmtKind::Close
        | StmtKind::Backspace
        | StmtKind::EndFile
        | StmtKind::Rewind => true,
        _ => false,
    }
}

/// Whether a control that is not supported stands in the list behind the word of a statement.
#[tactic(auto, unfolding(fortran_lexemes::specs::LexicalRows::has_other_controls))]
fn has_other_controls(text: &[Character], kind: StmtKind, rest: &[Token]) -> bool
    ensures { result ≡ has_other_controls kind (seen text.now rest.now) }
{
    takes_controls(kind)
        && first_is_opening(text, rest)
        && has_other_control(text, kind, 1, behind(text, rest))
}

/// Whether a control that is not supported stands in the list behind a token, if that is the word of a statement.
#[tactic(auto, unfolding(fortran_lexemes::specs::LexicalRows::begins_other_control, crate::specs::SeenTokens::lexeme_of))]
fn begins_other_control(text: &[Character], token: Token, rest: &[Token]) -> bool
    ensures { result ≡ begins_other_control (lexeme_of text.now token) (seen text.now rest.now) }
{
    match token {
        Token::Word(kind) => has_other_controls(text, kind, rest),
        _ => false,
    }
}

/// Whether a statement or a specifier that is not supported stands among tokens.
#[tactic(auto, unfolding(fortran_lexemes::specs::LexicalRows::has_other_statement, crate::specs::SeenTokens::seen))]
fn has_other_statement(text: &[Character], tokens: &[Token]) -> bool
    ensures { result ≡ has_other_statement (seen text.now tokens.now) }
{
    let [token, rest @ ..] = tokens else {
        return false;
    };
    is_other_statement(text, *token)
        || begins_other_control(text, *token, rest)
        || has_other_statement(text, rest)
}

/// The first of the rows F12 to F17 that the tokens of a statement have.
#[tactic(auto, unfolding(fortran_lexemes::specs::LexicalRows::first_lexical_row, fortran_lexemes::specs::LexicalRows::is_too_deep))]
pub(crate) fn first_lexical_row(
    kind: StmtKind,
    text: &[Character],
    tokens: &[Token],
) -> Option<Kind>
    ensures { result ≡ first_lexical_row kind (seen text.now tokens.now) }
{
    if has_too_large(text, tokens) {
        Some(Kind::IntegerTooLarge)
    } else if has_long_name(text, tokens) {
        Some(Kind::NameTooLong)
    } else if has_bad_quote(text, tokens) {
        Some(Kind::BadCharacterConstant)
    } else if has_other_type(text, tokens) {
        Some(Kind::TypeNotSupported)
    } else if has_other_statement(text, tokens) {
        Some(Kind::StatementOrSpecifierNotSupported)
    } else if is_deeper(text, 0, tokens) {
        Some(Kind::NestingTooDeep)
    } else {
        None
    }
}
