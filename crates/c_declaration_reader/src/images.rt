//! Arrays, and what they start with (C89, 3.5.4.2 and 3.5.7).

ghost use Rattle.std.specs.Prelude.{◌≡◌, [], Some, codes};
ghost use Rattle.c_readers.specs.ValueReader.{bounded, value};
ghost use Rattle.c_readers.specs.DeclarationReader as reader;
ghost use Rattle.c_expression_reader.specs.Readings.{shown, Gives};
ghost use Rattle.c_declaration_reader.specs.Endings.{seen_array_end};

use crate::endings::{ArrayEnd, array_end};
use crate::nodes::copied;
use crate::values::read_value;
use crate::wanted::{a_length, a_string_within, is_closed_within};
use c_expression_reader::{Failure, a_sign};
use c_lexer::{CSign, PlacedCToken};
use c_tree::expression::Text;
use plain_data::Items;
use std::alloc::Global;

/// The number of elements of an array, in brackets.
#[tactic(auto, unfolding(c_readers::specs::DeclarationReader::bracketed, c_lexer::specs::SeenTokens::sign_codes))]
pub(crate) fn bracketed<'a>(
    tokens: &'a [PlacedCToken],
) -> Result<(u32, &'a [PlacedCToken]), Failure<'a>>
    ensures { Gives (λ p. (p.0, shown p.1.now)) result (reader.bracketed (shown tokens.now)) }
{
    let rest = a_sign(CSign::OpenBracket, tokens)?;
    let (count, rest) = a_length(rest)?;
    let rest = a_sign(CSign::CloseBracket, rest)?;
    Ok((count, rest))
}

/// One value or more, up to the closing brace: so many at most.
#[tactic(auto, using(crate::proofs::BoundedSteps::bounded_steps), unfolding(c_lexer::specs::SeenTokens::sign_codes))]
fn some_values<'a>(
    alloc: Global,
    most: u32,
    tokens: &'a [PlacedCToken],
) -> Result<(Items<i32>, &'a [PlacedCToken]), Failure<'a>>
    ensures { Gives (λ p. (p.0, shown p.1.now)) result (bounded value (codes "}") most [] (shown tokens.now)) }
{
    let mut found = Items::new(alloc);
    let mut rest = tokens;
    let mut left = most;
    while left > 0 {
        left -= 1;
        let (one, behind) = read_value(rest)?;
        found.push(one)?;
        let (closed, behind) = is_closed_within(left, CSign::CloseBrace, behind)?;
        if closed {
            return Ok((found, behind));
        }
        rest = behind;
    }
    Err(Failure::NotC(rest))
}

/// The values that an array of so many numbers starts with, behind the equals sign.
#[tactic(auto, unfolding(c_readers::specs::DeclarationReader::image, c_lexer::specs::SeenTokens::sign_codes))]
fn image<'a>(
    alloc: Global,
    most: u32,
    tokens: &'a [PlacedCToken],
) -> Result<(Option<Items<i32>>, &'a [PlacedCToken]), Failure<'a>>
    ensures { Gives (λ p. (p.0, shown p.1.now)) result (reader.image most (shown tokens.now)) }
{
    let rest = a_sign(CSign::OpenBrace, tokens)?;
    let (values, rest) = some_values(alloc, most, rest)?;
    let rest = a_sign(CSign::Semicolon, rest)?;
    Ok((Some(values), rest))
}

/// What stands behind an array of so many numbers: the values that it starts with, in braces, and the end of the declaration.
///
/// # Errors
///
/// The tokens from the first one on with which nothing goes on, as from the comma behind the last value that the array has room for; or want of memory.
#[tactic(auto, unfolding(c_readers::specs::DeclarationReader::numbers, c_readers::specs::DeclarationReader::numbers_by, crate::specs::Endings::seen_array_end))]
pub fn read_numbers<'a>(
    alloc: Global,
    most: u32,
    tokens: &'a [PlacedCToken],
) -> Result<(Option<Items<i32>>, &'a [PlacedCToken]), Failure<'a>>
    ensures { Gives (λ p. (p.0, shown p.1.now)) result (reader.numbers most (shown tokens.now)) }
{
    let (end, rest) = array_end(tokens)?;
    match end {
        ArrayEnd::Ends => Ok((None, rest)),
        ArrayEnd::Starts => image(alloc, most, rest),
    }
}

/// The string that an array of so many characters starts with, behind the equals sign.
#[tactic(auto, unfolding(c_readers::specs::DeclarationReader::text_image, c_lexer::specs::SeenTokens::sign_codes))]
fn text_image<'a>(
    alloc: Global,
    most: u32,
    tokens: &'a [PlacedCToken],
) -> Result<(Option<Text>, &'a [PlacedCToken]), Failure<'a>>
    ensures { Gives (λ p. (p.0, shown p.1.now)) result (reader.text_image most (shown tokens.now)) }
{
    let (bytes, rest) = a_string_within(most, tokens)?;
    let rest = a_sign(CSign::Semicolon, rest)?;
    Ok((Some(copied(alloc, bytes)?), rest))
}

/// What stands behind an array of so many characters: the string that it starts with, and the end of the declaration.
///
/// # Errors
///
/// The tokens from the first one on with which nothing goes on, and from the string on where it is longer than the array; or want of memory.
#[tactic(auto, unfolding(c_readers::specs::DeclarationReader::text, c_readers::specs::DeclarationReader::text_by, crate::specs::Endings::seen_array_end))]
pub fn read_text<'a>(
    alloc: Global,
    most: u32,
    tokens: &'a [PlacedCToken],
) -> Result<(Option<Text>, &'a [PlacedCToken]), Failure<'a>>
    ensures { Gives (λ p. (p.0, shown p.1.now)) result (reader.text most (shown tokens.now)) }
{
    let (end, rest) = array_end(tokens)?;
    match end {
        ArrayEnd::Ends => Ok((None, rest)),
        ArrayEnd::Starts => text_image(alloc, most, rest),
    }
}
