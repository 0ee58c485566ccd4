//! Strings (C89, 3.1.4).

ghost use Rattle.std.specs.Prelude.{◌≡◌, ◌<◌, ◌≤◌, ◌∷◌, ℕ, List, IfOk};
ghost use Rattle.c_tree.specs.Tokens as c;
ghost use Rattle.c_tree.specs.Tokens.{string_from, is_digit_below};
ghost use Rattle.c_lexer.specs.Strings.{seen_awaited, IsWithin, continued, StaysWithin, NeedsNoMore, IsStringEnd};

use crate::classes::is_plain;
use c_tree::expression::Text;
use plain_data::Items;
use std::alloc::{AllocError, Global};

/// What is awaited in a string.
#[derive(Clone, Copy)]
pub(crate) enum Awaited {
    /// A byte, or what stands for one.
    Plain,
    /// What follows a backslash.
    Escape,
    /// The second octal digit of a byte, behind the first one.
    SecondDigit(u8),
    /// The third one, behind the value of the first two.
    ThirdDigit(u8),
}

/// What a byte does in a string.
#[derive(Clone, Copy)]
pub(crate) enum Effect {
    /// It ends the string.
    Ends,
    /// It stands in no string there.
    Fails,
    /// It begins or continues what stands for a byte.
    Awaits(Awaited),
    /// It is the last that stands for this byte.
    Gives(u8),
}

/// What the bytes behind the first quote of a string are.
#[derive(Drop)]
pub(crate) enum StringEnd {
    /// The bytes of a string, and how many bytes of the text they take with the quote that ends it.
    Closed(Text, usize),
    /// Bytes that no quote ends: how many of them may stand in a string.
    Unclosed(usize),
}

/// Whether a byte is one of so many digits, from 0 on.
#[tactic(auto, using(std::proofs::lemmas::Bool::Decides::nat_tests))]
fn is_digit_below(bound: u8, byte: u8) -> bool
    requires { bound ≤ 8 }
    ensures { result ≡ is_digit_below bound byte }
{
    b'0' <= byte && byte < b'0' + bound
}

/// What a byte does where a byte is awaited.
#[tactic(auto, using(crate::proofs::StringLemmas::plain_ends, crate::proofs::StringLemmas::plain_escapes, crate::proofs::StringLemmas::plain_itself, crate::proofs::StringLemmas::plain_fails))]
fn plain_effect(byte: u8) -> Effect
    ensures goes_on { (later : List ℕ) → string_from c.Plain (byte ∷ later) ≡ continued result later }
    ensures within { StaysWithin result }
    ensures quote { byte ≡ 34 → NeedsNoMore result }
{
    match byte {
        b'"' => Effect::Ends,
        b'\\' => Effect::Awaits(Awaited::Escape),
        _ if is_plain(byte) => Effect::Gives(byte),
        _ => Effect::Fails,
    }
}

/// What a byte does behind a backslash.
#[tactic(auto, using(crate::proofs::StringLemmas::escape_quote, crate::proofs::StringLemmas::escape_escape, crate::proofs::StringLemmas::escape_digit, crate::proofs::StringLemmas::escape_fails, crate::proofs::StringLemmas::digit_range, crate::proofs::StringLemmas::quote_no_digit))]
fn escape_effect(byte: u8) -> Effect
    ensures goes_on { (later : List ℕ) → string_from c.Escape (byte ∷ later) ≡ continued result later }
    ensures within { StaysWithin result }
    ensures quote { byte ≡ 34 → NeedsNoMore result }
{
    if byte == b'"' || byte == b'\\' {
        Effect::Gives(byte)
    } else if is_digit_below(4, byte) {
        Effect::Awaits(Awaited::SecondDigit(byte - b'0'))
    } else {
        Effect::Fails
    }
}

/// What a byte does behind the first octal digit.
#[tactic(auto, using(crate::proofs::StringLemmas::second_digit, crate::proofs::StringLemmas::second_fails, crate::proofs::StringLemmas::digit_range, crate::proofs::StringLemmas::quote_no_digit))]
fn second_digit_effect(value: u8, byte: u8) -> Effect
    requires { value < 4 }
    ensures goes_on { (later : List ℕ) → string_from (c.Octal 1 value) (byte ∷ later) ≡ continued result later }
    ensures within { StaysWithin result }
    ensures quote { byte ≡ 34 → NeedsNoMore result }
{
    if is_digit_below(8, byte) {
        Effect::Awaits(Awaited::ThirdDigit(8 * value + (byte - b'0')))
    } else {
        Effect::Fails
    }
}

/// What a byte does behind two octal digits.
#[tactic(auto, using(crate::proofs::StringLemmas::third_digit, crate::proofs::StringLemmas::third_fails, crate::proofs::StringLemmas::digit_range, crate::proofs::StringLemmas::quote_no_digit))]
fn third_digit_effect(value: u8, byte: u8) -> Effect
    requires { value < 32 }
    ensures goes_on { (later : List ℕ) → string_from (c.Octal 0 value) (byte ∷ later) ≡ continued result later }
    ensures within { StaysWithin result }
    ensures quote { byte ≡ 34 → NeedsNoMore result }
{
    if is_digit_below(8, byte) {
        Effect::Gives(8 * value + (byte - b'0'))
    } else {
        Effect::Fails
    }
}

/// What a byte does in a string.
#[tactic(auto, unfolding(crate::specs::Strings::seen_awaited))]
fn effect_of(awaited: Awaited, byte: u8) -> Effect
    requires { IsWithin awaited }
    ensures goes_on { (later : List ℕ) → string_from (seen_awaited awaited) (byte ∷ later) ≡ continued result later }
    ensures within { StaysWithin result }
    ensures quote { byte ≡ 34 → NeedsNoMore result }
{
    match awaited {
        Awaited::Plain => plain_effect(byte),
        Awaited::Escape => escape_effect(byte),
        Awaited::SecondDigit(value) => second_digit_effect(value, byte),
        Awaited::ThirdDigit(value) => third_digit_effect(value, byte),
    }
}

/// The string that a text is, behind its first quote, or how far it might be one.
#[tactic(auto, using(crate::proofs::StringLemmas::stands_first, crate::proofs::StringLemmas::stands_awaits, crate::proofs::StringLemmas::stands_gives, crate::proofs::StringLemmas::closed, crate::proofs::StringLemmas::failed, crate::proofs::StringLemmas::ended))]
pub(crate) fn string_end(alloc: Global, text: &[u8]) -> Result<StringEnd, AllocError>
    ensures { IfOk result (IsStringEnd text.now) }
{
    let mut bytes = Items::new(alloc);
    let mut awaited = Awaited::Plain;
    for (at, byte) in text.iter().enumerate() {
        let given = match effect_of(awaited, *byte) {
            Effect::Ends => return Ok(StringEnd::Closed(bytes, at + 1)),
            Effect::Fails => return Ok(StringEnd::Unclosed(at)),
            Effect::Awaits(next) => {
                awaited = next;
                continue;
            }
            Effect::Gives(given) => given,
        };
        bytes.push(given)?;
        awaited = Awaited::Plain;
    }
    Ok(StringEnd::Unclosed(text.len()))
}
