//! The tokens of a text.

ghost use Rattle.std.specs.Prelude.{◌≡◌, ◌++◌, option_map, option_to_list, IfOk, IfErr};
ghost use Rattle.fortran_text.specs.CharactersOfText.{characters};
ghost use Rattle.fortran_lexemes.specs.PiecesOfStatements.{pieces};
ghost use Rattle.stmt_lex.specs.SeenTokens.{seen, shifted, shifted_span};
ghost use Rattle.stmt_lex.specs.TokensOfTexts.{IsTokenList, IsLexFail};

use crate::rows::first_lexical_row;
use crate::squeeze::characters;
use crate::steps::step_past_blank;
use crate::token::{LexFail, Span, Token, TokenList};
use fortran_lexemes::{Mode, StmtKind};
use fortran_text::Character;
use plain_data::Items;
use std::alloc::{AllocError, Global};

/// A span that stands so many characters further on.
fn shifted_span(at: usize, span: Span) -> Span
    ensures { result ≡ shifted_span at span }
{
    Span {
        from: at.saturating_add(span.from),
        len: span.len,
    }
}

/// A token that stands so many characters further on.
fn shifted(at: usize, token: Token) -> Token
    ensures { result ≡ shifted at token }
{
    match token {
        Token::Name(span) => Token::Name(shifted_span(at, span)),
        Token::Number(span, value) => Token::Number(shifted_span(at, span), value),
        Token::Quoted(span) => Token::Quoted(shifted_span(at, span)),
        Token::FormatText(span) => Token::FormatText(shifted_span(at, span)),
        _ => token,
    }
}

/// Tokens with one more behind them, if there is one.
fn with_token(
    found: Items<Token>,
    at: usize,
    token: Option<Token>,
) -> Result<Items<Token>, AllocError>
    ensures { IfOk result (λ longer. longer ≡ found ++ option_to_list (option_map (shifted at) token)) }
{
    let mut longer = found;
    if let Some(token) = token {
        longer.push(shifted(at, token))?;
    }
    Ok(longer)
}

/// The tokens of the characters of a statement.
fn tokens_of(alloc: Global, kind: StmtKind, text: &[Character]) -> Result<Items<Token>, AllocError>
    ensures { IfOk result (λ found. seen text.now found ≡ pieces kind text.now) }
{
    let mut found = Items::new(alloc);
    let mut mode = Mode::Begins(kind);
    let mut at = 0;
    for _ in 0..text.len() {
        let [first, rest @ ..] = &text[at..] else {
            return Ok(found);
        };
        let step = step_past_blank(alloc, mode, &text[at..], *first, rest)?;
        found = with_token(found, at, step.token)?;
        at += step.len;
        mode = step.next;
    }
    Ok(found)
}

/// The tokens of the text of a statement, which may be refused.
fn tokens_of_text(
    alloc: Global,
    kind: StmtKind,
    labelled: bool,
    text: &[u8],
) -> Result<TokenList, AllocError>
    ensures characters { IfOk result (λ found. found.text ≡ characters labelled text.now) }
    ensures pieces { IfOk result (λ found. seen found.text found.tokens ≡ pieces kind (characters labelled text.now)) }
{
    let text = characters(alloc, labelled, text)?;
    let tokens = tokens_of(alloc, kind, text.as_slice())?;
    Ok(TokenList { text, tokens })
}

/// The tokens of the text of a statement of a kind, which may have a label, or the first of the rows F12 to F17 that the text has. Only a
/// text without such a row has tokens.
#[tactic(auto, using(crate::proofs::ReaderLemmas::accepted, crate::proofs::ReaderLemmas::refused))]
pub fn tokens(
    alloc: Global,
    kind: StmtKind,
    labelled: bool,
    text: &[u8],
) -> Result<TokenList, LexFail>
    ensures ok { IfOk result (IsTokenList kind (characters labelled text.now)) }
    ensures err { IfErr result (IsLexFail kind (characters labelled text.now)) }
{
    let Ok(found) = tokens_of_text(alloc, kind, labelled, text) else {
        return Err(LexFail::NoMemory);
    };
    match first_lexical_row(kind, found.text(), found.tokens()) {
        Some(row) => Err(LexFail::Refused(row)),
        None => Ok(found),
    }
}
