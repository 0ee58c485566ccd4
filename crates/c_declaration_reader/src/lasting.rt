//! Declarations of what lasts for the whole run (C89, 3.5.1 and 3.5.7).

ghost use Rattle.std.specs.Prelude.{◌≡◌};
ghost use Rattle.c_readers.specs.DeclarationReader as reader;
ghost use Rattle.c_readers.specs.DeclarationReader.{is_new};
ghost use Rattle.c_scope.specs.ScopeSeen.{scope_of, here_of};
ghost use Rattle.c_expression_reader.specs.Readings.{shown, Gives};
ghost use Rattle.c_declaration_reader.specs.Endings.{seen_number_end, seen_static_lead};
ghost use Rattle.c_declaration_reader.specs.SeenDeclarations.{seen_declared};

use crate::endings::{NumberEnd, number_end};
use crate::fields::{field_count, some_fields};
use crate::images::{read_numbers, read_text};
use crate::leads::{StaticLead, static_lead};
use crate::nodes::{Declared, copied, static_chars, static_list, static_number, static_numbers};
use crate::values::read_value;
use crate::wanted::{a_length, a_name_of_the_function, a_string, is_length};
use c_expression_reader::{Failure, a_sign};
use c_lexer::{CSign, CToken, PlacedCToken};
use c_scope::CScope;
use c_tree::types::{ListType, NumberType};
use std::alloc::Global;

/// Behind the equals sign of a number that lasts: its value.
#[tactic(auto, unfolding(c_readers::specs::DeclarationReader::static_value, c_lexer::specs::SeenTokens::sign_codes))]
fn with_value<'a>(
    alloc: Global,
    of: NumberType,
    name: &'a [u8],
    tokens: &'a [PlacedCToken],
) -> Result<(Declared<'a>, &'a [PlacedCToken]), Failure<'a>>
    ensures { Gives (λ p. (seen_declared p.0, shown p.1.now)) result (reader.static_value of name.now (shown tokens.now)) }
{
    let (value, rest) = read_value(tokens)?;
    let rest = a_sign(CSign::Semicolon, rest)?;
    Ok((static_number(alloc, of, name, Some(value))?, rest))
}

/// Behind the opening bracket of an array of numbers that lasts: its number of elements, and the values that they start with.
#[tactic(auto, unfolding(c_readers::specs::DeclarationReader::static_numbers, c_lexer::specs::SeenTokens::sign_codes))]
fn with_numbers<'a>(
    alloc: Global,
    of: NumberType,
    name: &'a [u8],
    tokens: &'a [PlacedCToken],
) -> Result<(Declared<'a>, &'a [PlacedCToken]), Failure<'a>>
    ensures { Gives (λ p. (seen_declared p.0, shown p.1.now)) result (reader.static_numbers of name.now (shown tokens.now)) }
{
    let (count, rest) = a_length(tokens)?;
    let rest = a_sign(CSign::CloseBracket, rest)?;
    let (values, rest) = read_numbers(alloc, count, rest)?;
    Ok((static_numbers(alloc, of, name, count, values)?, rest))
}

/// Behind the name of a number that lasts, and the sign behind the name.
#[tactic(auto, unfolding(c_readers::specs::DeclarationReader::static_number_by, crate::specs::Endings::seen_number_end))]
fn number_by<'a>(
    alloc: Global,
    of: NumberType,
    name: &'a [u8],
    end: NumberEnd,
    tokens: &'a [PlacedCToken],
) -> Result<(Declared<'a>, &'a [PlacedCToken]), Failure<'a>>
    ensures { Gives (λ p. (seen_declared p.0, shown p.1.now)) result (reader.static_number_by of name.now (shown tokens.now) (seen_number_end end)) }
{
    match end {
        NumberEnd::Bare => Ok((static_number(alloc, of, name, None)?, tokens)),
        NumberEnd::Valued => with_value(alloc, of, name, tokens),
        NumberEnd::Many => with_numbers(alloc, of, name, tokens),
    }
}

/// Behind the type of a number that lasts, or of an array of them.
#[tactic(auto, unfolding(c_readers::specs::DeclarationReader::static_number))]
fn a_number<'a>(
    alloc: Global,
    scope: &CScope,
    of: NumberType,
    tokens: &'a [PlacedCToken],
) -> Result<(Declared<'a>, &'a [PlacedCToken]), Failure<'a>>
    ensures { Gives (λ p. (seen_declared p.0, shown p.1.now)) result (reader.static_number (is_new (here_of scope.now)) of (shown tokens.now)) }
{
    let (name, rest) = a_name_of_the_function(scope, tokens)?;
    let (end, rest) = number_end(rest)?;
    number_by(alloc, of, name, end, rest)
}

/// Behind the length of an array of characters that lasts: the closing bracket, and the string that it starts with.
#[tactic(auto, unfolding(c_readers::specs::DeclarationReader::static_text, c_lexer::specs::SeenTokens::sign_codes))]
fn with_text<'a>(
    alloc: Global,
    name: &'a [u8],
    count: u32,
    tokens: &'a [PlacedCToken],
) -> Result<(Declared<'a>, &'a [PlacedCToken]), Failure<'a>>
    ensures { Gives (λ p. (seen_declared p.0, shown p.1.now)) result (reader.static_text name.now count (shown tokens.now)) }
{
    let rest = a_sign(CSign::CloseBracket, tokens)?;
    let (bytes, rest) = read_text(alloc, count, rest)?;
    Ok((static_chars(alloc, name, Some(count), bytes)?, rest))
}

/// Behind the brackets of an array that is as long as its string.
#[tactic(auto, unfolding(c_readers::specs::DeclarationReader::own_length, c_lexer::specs::SeenTokens::sign_codes))]
fn own_length<'a>(
    alloc: Global,
    name: &'a [u8],
    tokens: &'a [PlacedCToken],
) -> Result<(Declared<'a>, &'a [PlacedCToken]), Failure<'a>>
    ensures { Gives (λ p. (seen_declared p.0, shown p.1.now)) result (reader.own_length name.now (shown tokens.now)) }
{
    let rest = a_sign(CSign::Assign, tokens)?;
    let (bytes, rest) = a_string(rest)?;
    let rest = a_sign(CSign::Semicolon, rest)?;
    let bytes = copied(alloc, bytes)?;
    Ok((static_chars(alloc, name, None, Some(bytes))?, rest))
}

/// Behind the opening bracket of an array of characters that lasts.
#[tactic(auto, unfolding(c_expression_reader::specs::Readings::shown, c_lexer::specs::SeenTokens::seen, c_lexer::specs::SeenTokens::sign_codes, c_readers::specs::DeclarationReader::static_chars_behind))]
fn chars_behind<'a>(
    alloc: Global,
    name: &'a [u8],
    tokens: &'a [PlacedCToken],
) -> Result<(Declared<'a>, &'a [PlacedCToken]), Failure<'a>>
    ensures { Gives (λ p. (seen_declared p.0, shown p.1.now)) result (reader.static_chars_behind name.now (shown tokens.now)) }
{
    let [first, rest @ ..] = tokens else {
        return Err(Failure::NotC(tokens));
    };
    match &first.token {
        CToken::Digits(count) if is_length(*count) => with_text(alloc, name, *count, rest),
        CToken::Sign(CSign::CloseBracket) => own_length(alloc, name, rest),
        _ => Err(Failure::NotC(tokens)),
    }
}

/// Behind the type of an array of characters that lasts.
#[tactic(auto, unfolding(c_readers::specs::DeclarationReader::static_chars, c_lexer::specs::SeenTokens::sign_codes))]
fn some_chars<'a>(
    alloc: Global,
    scope: &CScope,
    tokens: &'a [PlacedCToken],
) -> Result<(Declared<'a>, &'a [PlacedCToken]), Failure<'a>>
    ensures { Gives (λ p. (seen_declared p.0, shown p.1.now)) result (reader.static_chars (is_new (here_of scope.now)) (shown tokens.now)) }
{
    let (name, rest) = a_name_of_the_function(scope, tokens)?;
    let rest = a_sign(CSign::OpenBracket, rest)?;
    chars_behind(alloc, name, rest)
}

/// Behind the type of a list block.
#[tactic(auto, unfolding(c_readers::specs::DeclarationReader::static_list, c_lexer::specs::SeenTokens::sign_codes))]
fn a_list<'a>(
    alloc: Global,
    scope: &CScope,
    of: ListType,
    tokens: &'a [PlacedCToken],
) -> Result<(Declared<'a>, &'a [PlacedCToken]), Failure<'a>>
    ensures { Gives (λ p. (seen_declared p.0, shown p.1.now)) result (reader.static_list (scope_of scope.now) (is_new (here_of scope.now)) of (shown tokens.now)) }
{
    let (name, rest) = a_name_of_the_function(scope, tokens)?;
    let rest = a_sign(CSign::Assign, rest)?;
    let rest = a_sign(CSign::OpenBrace, rest)?;
    let (fields, rest) = some_fields(alloc, scope, field_count(of), rest)?;
    let rest = a_sign(CSign::Semicolon, rest)?;
    Ok((static_list(alloc, of, name, fields)?, rest))
}

/// Behind `static` and the word behind it.
#[tactic(auto, unfolding(c_readers::specs::DeclarationReader::static_by, crate::specs::Endings::seen_static_lead))]
fn lasting_by<'a>(
    alloc: Global,
    scope: &CScope,
    lead: StaticLead,
    tokens: &'a [PlacedCToken],
) -> Result<(Declared<'a>, &'a [PlacedCToken]), Failure<'a>>
    ensures { Gives (λ p. (seen_declared p.0, shown p.1.now)) result (reader.static_by (scope_of scope.now) (is_new (here_of scope.now)) (shown tokens.now) (seen_static_lead lead)) }
{
    match lead {
        StaticLead::OfNumbers(of) => a_number(alloc, scope, of, tokens),
        StaticLead::OfChars => some_chars(alloc, scope, tokens),
        StaticLead::OfList(of) => a_list(alloc, scope, of, tokens),
    }
}

/// Behind `static`.
#[tactic(auto, using(crate::proofs::WordSteps::static_is))]
pub(crate) fn lasting<'a>(
    alloc: Global,
    scope: &CScope,
    tokens: &'a [PlacedCToken],
) -> Result<(Declared<'a>, &'a [PlacedCToken]), Failure<'a>>
    ensures { Gives (λ p. (seen_declared p.0, shown p.1.now)) result (reader.static (scope_of scope.now) (is_new (here_of scope.now)) (shown tokens.now)) }
{
    let (lead, rest) = static_lead(tokens)?;
    lasting_by(alloc, scope, lead, rest)
}
