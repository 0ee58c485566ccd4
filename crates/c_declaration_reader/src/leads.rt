//! What words begin where a declaration is wanted (C89, 3.5 and 3.7).

ghost use Rattle.std.specs.Prelude.{◌≡◌, option_map};
ghost use Rattle.c_readers.specs.Readers.{lookup};
ghost use Rattle.c_readers.specs.ValueReader.{a_word_of};
ghost use Rattle.c_readers.specs.DeclarationReader as reader;
ghost use Rattle.c_expression_reader.specs.Readings.{shown, Gives};
ghost use Rattle.c_declaration_reader.specs.Endings.{seen_static_lead, seen_local_lead, seen_object_lead};
ghost use Rattle.c_declaration_reader.specs.HeadParts.{lead_in};
ghost use Rattle.c_file_readers.specs.ObjectReader as object;

use c_expression_reader::Failure;
use c_lexer::{CToken, PlacedCToken};
use c_tree::types::{ListType, NumberType};

/// What a word begins behind `static`.
#[derive(Clone, Copy)]
pub(crate) enum StaticLead {
    /// A number, or an array of numbers.
    OfNumbers(NumberType),
    /// An array of characters.
    OfChars,
    /// A list block.
    OfList(ListType),
}

/// What a word begins at the head of a function.
#[derive(Clone, Copy)]
pub(crate) enum LocalLead {
    /// A function that stands elsewhere.
    External,
    /// What lasts for the whole run.
    Lasting,
    /// A number, or an array of numbers.
    Numbers(NumberType),
    /// An array of characters.
    Chars,
    /// An array of addresses.
    Addresses,
}

/// What a word begins where an external object is wanted.
#[derive(Clone, Copy)]
pub(crate) enum ObjectLead {
    /// An array of integers.
    OfIntegers,
    /// An array of characters.
    OfCharacters,
}

/// What a word begins behind `static`, if it begins something.
#[tactic(auto, unfolding(crate::specs::Endings::seen_static_lead))]
fn listed_static(text: &[u8]) -> Option<StaticLead>
    ensures { option_map seen_static_lead result ≡ lookup text.now reader.static_words }
{
    if text == b"integer".as_slice() {
        Some(StaticLead::OfNumbers(NumberType::Integer))
    } else if text == b"logical".as_slice() {
        Some(StaticLead::OfNumbers(NumberType::Logical))
    } else if text == b"char".as_slice() {
        Some(StaticLead::OfChars)
    } else if text == b"cilist".as_slice() {
        Some(StaticLead::OfList(ListType::Transfer))
    } else if text == b"icilist".as_slice() {
        Some(StaticLead::OfList(ListType::Internal))
    } else if text == b"olist".as_slice() {
        Some(StaticLead::OfList(ListType::Open))
    } else if text == b"cllist".as_slice() {
        Some(StaticLead::OfList(ListType::Close))
    } else if text == b"alist".as_slice() {
        Some(StaticLead::OfList(ListType::Position))
    } else {
        None
    }
}

/// What a word begins at the head of a function, if it begins something.
#[tactic(auto, unfolding(crate::specs::Endings::seen_local_lead))]
fn listed_local(text: &[u8]) -> Option<LocalLead>
    ensures { option_map seen_local_lead result ≡ lookup text.now reader.local_words }
{
    if text == b"extern".as_slice() {
        Some(LocalLead::External)
    } else if text == b"static".as_slice() {
        Some(LocalLead::Lasting)
    } else if text == b"integer".as_slice() {
        Some(LocalLead::Numbers(NumberType::Integer))
    } else if text == b"logical".as_slice() {
        Some(LocalLead::Numbers(NumberType::Logical))
    } else if text == b"char".as_slice() {
        Some(LocalLead::Chars)
    } else if text == b"address".as_slice() {
        Some(LocalLead::Addresses)
    } else {
        None
    }
}

/// What a word begins where an external object is wanted, if it begins one.
#[tactic(auto, unfolding(crate::specs::Endings::seen_object_lead))]
fn listed_object(text: &[u8]) -> Option<ObjectLead>
    ensures { option_map seen_object_lead result ≡ lookup text.now object.object_words }
{
    if text == b"integer".as_slice() {
        Some(ObjectLead::OfIntegers)
    } else if text == b"char".as_slice() {
        Some(ObjectLead::OfCharacters)
    } else {
        None
    }
}

/// What the word behind `static` begins, and the tokens behind it.
#[tactic(auto, unfolding(c_expression_reader::specs::Readings::shown, c_lexer::specs::SeenTokens::seen, c_readers::specs::ValueReader::a_word_of))]
pub(crate) fn static_lead<'a>(
    tokens: &'a [PlacedCToken],
) -> Result<(StaticLead, &'a [PlacedCToken]), Failure<'a>>
    ensures { Gives (λ p. (seen_static_lead p.0, shown p.1.now)) result (a_word_of reader.static_words (shown tokens.now)) }
{
    match tokens {
        [
            PlacedCToken {
                token: CToken::Word(text),
                ..
            },
            rest @ ..,
        ] => match listed_static(text.as_slice()) {
            Some(lead) => Ok((lead, rest)),
            None => Err(Failure::NotC(tokens)),
        },
        _ => Err(Failure::NotC(tokens)),
    }
}

/// What a word begins where an external object is wanted, and the tokens behind it.
#[tactic(auto, unfolding(c_expression_reader::specs::Readings::shown, c_lexer::specs::SeenTokens::seen, c_readers::specs::ValueReader::a_word_of))]
pub(crate) fn object_lead<'a>(
    tokens: &'a [PlacedCToken],
) -> Result<(ObjectLead, &'a [PlacedCToken]), Failure<'a>>
    ensures { Gives (λ p. (seen_object_lead p.0, shown p.1.now)) result (a_word_of object.object_words (shown tokens.now)) }
{
    match tokens {
        [
            PlacedCToken {
                token: CToken::Word(text),
                ..
            },
            rest @ ..,
        ] => match listed_object(text.as_slice()) {
            Some(lead) => Ok((lead, rest)),
            None => Err(Failure::NotC(tokens)),
        },
        _ => Err(Failure::NotC(tokens)),
    }
}

/// The declaration that tokens begin, if they begin one, and the tokens behind its first word.
#[tactic(auto, unfolding(c_expression_reader::specs::Readings::shown, c_lexer::specs::SeenTokens::seen, crate::specs::HeadParts::lead_in))]
pub(crate) fn local_lead<'a>(tokens: &'a [PlacedCToken]) -> Option<(LocalLead, &'a [PlacedCToken])>
    ensures { option_map (λ p. (seen_local_lead p.0, shown p.1.now)) result ≡ lead_in (shown tokens.now) }
{
    match tokens {
        [
            PlacedCToken {
                token: CToken::Word(text),
                ..
            },
            rest @ ..,
        ] => match listed_local(text.as_slice()) {
            Some(lead) => Some((lead, rest)),
            None => None,
        },
        _ => None,
    }
}
