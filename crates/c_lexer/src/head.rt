//! What stands at the head of a text (C89, 2.1.1.2, 3.1 and 3.8.2).

ghost use Rattle.std.specs.Prelude.{◌≡◌, ◌<◌, ◌≤◌, ◌∷◌, true, false, length, drop, IfOk};
ghost use Rattle.c_tree.specs.Tokens as c;
ghost use Rattle.c_tree.specs.Tokens.{is_word_byte, string_from, include_at, comment_at};
ghost use Rattle.c_lexer.specs.Heads.{IsKnown, IsHead, IsHeadOf};
ghost use Rattle.c_lexer.specs.Parts.{IsLongSign};

use crate::classes::{is_space, is_word_byte};
use crate::number::word_or_number;
use crate::sign::{sign_of_one, sign_of_two};
use crate::spans::{begins_with, comment_end, include_len, word_len};
use crate::strings::{StringEnd, string_end};
use crate::token::{CSign, CToken};
use std::alloc::{AllocError, Global};

/// What stands at the head of a text, and how many bytes it takes.
#[derive(Drop)]
pub(crate) enum Head {
    /// White space or a comment.
    Gap(usize),
    /// A token.
    Lexeme(CToken, usize),
}

/// What is known of a text from here on, so that its bytes are not looked at again and again where strings and comments have no end.
#[derive(Clone, Copy)]
pub(crate) struct Known {
    /// How many bytes have no quote among them that begins a string.
    pub(crate) quotes: usize,
    /// Whether no comment has an end.
    pub(crate) comments: bool,
}

/// What stands at the head of a text, and what is known of the text.
#[derive(Drop)]
pub(crate) struct Found {
    pub(crate) head: Head,
    pub(crate) known: Known,
}

/// A byte that begins no token, by what stands behind it.
#[tactic(auto, using(crate::proofs::HeadLemmas::is_bad))]
fn bad(known: Known, first: u8, later: &[u8]) -> Found
    requires { IsKnown (first ∷ later.now) known }
    ensures { IsHead (first ∷ later.now) (c.Lexeme c.Bad later.now) result }
{
    Found {
        head: Head::Lexeme(CToken::Bad, 1),
        known,
    }
}

/// What stands at a quote, by the text behind it.
#[tactic(auto, using(crate::proofs::HeadLemmas::bad_string_known, crate::proofs::HeadLemmas::bad_string_open, crate::proofs::HeadLemmas::open_known))]
fn string_head(alloc: Global, known: Known, later: &[u8]) -> Result<Found, AllocError>
    requires { IsKnown (34 ∷ later.now) known }
    ensures { IfOk result (IsHead (34 ∷ later.now) (c.string_head later.now (string_from c.Plain later.now))) }
{
    if known.quotes > 0 {
        return Ok(bad(known, b'"', later));
    }
    match string_end(alloc, later)? {
        StringEnd::Closed(bytes, len) => Ok(Found {
            head: Head::Lexeme(CToken::Quoted(bytes), len + 1),
            known,
        }),
        StringEnd::Unclosed(count) => {
            let quotes = count + 1;
            let comments = known.comments;
            Ok(bad(Known { quotes, comments }, b'"', later))
        }
    }
}

/// What stands at a number sign that is alone on its line, by the text and the text behind it.
#[tactic(auto, using(crate::proofs::HeadLemmas::bad_include, crate::proofs::HeadLemmas::known_as))]
fn include_head(known: Known, text: &[u8], first: u8, later: &[u8]) -> Found
    requires text { text.now ≡ first ∷ later.now }
    requires known { IsKnown text.now known }
    ensures { IsHead text.now (c.include_head later.now (include_at text.now)) result }
{
    match include_len(text) {
        Some(len) => Found {
            head: Head::Lexeme(CToken::Including, len),
            known,
        },
        None => bad(known, first, later),
    }
}

/// What stands where a comment begins, by the text behind its first byte and behind its second.
#[tactic(auto, using(crate::proofs::HeadLemmas::bad_comment_known, crate::proofs::HeadLemmas::bad_comment_open, crate::proofs::HeadLemmas::comments_known))]
fn comment_head(known: Known, later: &[u8], inside: &[u8]) -> Found
    requires inside { later.now ≡ 42 ∷ inside.now }
    requires known { IsKnown (47 ∷ later.now) known }
    ensures { IsHead (47 ∷ later.now) (c.comment_head later.now (comment_at (47 ∷ later.now))) result }
{
    if known.comments {
        return bad(known, b'/', later);
    }
    match comment_end(inside) {
        Some(len) => Found {
            head: Head::Gap(len + 2),
            known,
        },
        None => {
            let quotes = known.quotes;
            let comments = true;
            bad(Known { quotes, comments }, b'/', later)
        }
    }
}

/// What stands at a slash, by the text behind it: a comment or a sign.
#[tactic(auto, using(crate::proofs::HeadLemmas::second_is, crate::proofs::HeadLemmas::slash_is_comment, crate::proofs::HeadLemmas::slash_is_sign))]
fn slash_head(known: Known, later: &[u8]) -> Found
    requires { IsKnown (47 ∷ later.now) known }
    ensures { IsHeadOf false (47 ∷ later.now) result }
{
    if begins_with(b'*', later) {
        comment_head(known, later, &later[1..])
    } else {
        sign_head(known, b'/', later)
    }
}

/// The sign of the first two bytes of a text, of which the first is given apart.
fn long_sign(first: u8, later: &[u8]) -> Option<CSign>
    ensures { IsLongSign (first ∷ later.now) result }
{
    match later {
        [second, ..] => sign_of_two(first, *second),
        [] => None,
    }
}

/// The longest sign at the head of a text, or a byte that begins no token.
#[tactic(auto, using(crate::proofs::HeadLemmas::bad_sign))]
fn sign_head(known: Known, first: u8, later: &[u8]) -> Found
    requires { IsKnown (first ∷ later.now) known }
    ensures { IsHead (first ∷ later.now) (c.sign_head (first ∷ later.now)) result }
{
    if let Some(sign) = long_sign(first, later) {
        return Found {
            head: Head::Lexeme(CToken::Sign(sign), 2),
            known,
        };
    }
    match sign_of_one(first) {
        Some(sign) => Found {
            head: Head::Lexeme(CToken::Sign(sign), 1),
            known,
        },
        None => bad(known, first, later),
    }
}

/// The word or the number at the head of a text, of which the first byte is given.
fn word_head(
    alloc: Global,
    known: Known,
    text: &[u8],
    first: u8,
    later: &[u8],
) -> Result<Found, AllocError>
    requires text { text.now ≡ first ∷ later.now }
    requires word { is_word_byte first ≡ true }
    requires known { IsKnown text.now known }
    ensures { IfOk result (IsHead text.now (let cut = c.run is_word_byte text.now in c.Lexeme (c.word_or_number first cut.front) cut.rest)) }
{
    let len = word_len(text);
    let token = word_or_number(alloc, first, &text[..len])?;
    Ok(Found {
        head: Head::Lexeme(token, len),
        known,
    })
}

/// What stands at the head of a text, given its first byte and what follows, and whether only blanks stand before it on its line.
#[tactic(auto, using(crate::proofs::HeadLemmas::known_as, crate::proofs::HeadLemmas::head_word, crate::proofs::HeadLemmas::head_string, crate::proofs::HeadLemmas::head_include, crate::proofs::HeadLemmas::head_slash, crate::proofs::HeadLemmas::head_sign))]
pub(crate) fn head_of(
    alloc: Global,
    alone: bool,
    known: Known,
    text: &[u8],
    first: u8,
    later: &[u8],
) -> Result<Found, AllocError>
    requires text { text.now ≡ first ∷ later.now }
    requires known { IsKnown text.now known }
    ensures { IfOk result (IsHeadOf alone text.now) }
{
    if is_space(first) {
        let head = Head::Gap(1);
        return Ok(Found { head, known });
    }
    if is_word_byte(first) {
        return word_head(alloc, known, text, first, later);
    }
    if first == b'"' {
        return string_head(alloc, known, later);
    }
    if alone && first == b'#' {
        return Ok(include_head(known, text, first, later));
    }
    if first == b'/' {
        return Ok(slash_head(known, later));
    }
    Ok(sign_head(known, first, later))
}
