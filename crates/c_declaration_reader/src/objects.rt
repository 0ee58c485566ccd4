//! External objects and constants (C89, 3.5.7 and 3.7.2).

ghost use Rattle.std.specs.Prelude.{◌≡◌, false, IfOk};
ghost use Rattle.c_tree.specs.CWords.{is_among};
ghost use Rattle.c_readers.specs.DeclarationReader.{is_new};
ghost use Rattle.c_scope.specs.ScopeSeen.{file_here_of};
ghost use Rattle.c_expression_reader.specs.Readings.{shown, Gives};
ghost use Rattle.c_declaration_reader.specs.Endings.{seen_object_lead};
ghost use Rattle.c_file_readers.specs.ObjectReader as reader;
ghost use Rattle.c_declaration_reader.specs.SeenDeclarations.{seen_named};

use crate::images::{bracketed, read_numbers, read_text};
use crate::leads::{ObjectLead, object_lead};
use crate::nodes::{Named, NamedConstant, constant, external_characters, external_integers};
use crate::values::read_value;
use crate::wanted::a_name_of_the_file;
use c_expression_reader::{Failure, a_sign, a_word};
use c_lexer::{CSign, PlacedCToken};
use c_scope::CScope;
use std::alloc::Global;

/// Behind the name of an external array of integers: the number of its elements, and the values that they start with.
///
/// # Errors
///
/// The tokens from the first one on with which nothing goes on, as from the comma behind the last value that the array has room for; or want of memory.
#[tactic(auto, unfolding(c_file_readers::specs::ObjectReader::integers_behind))]
pub fn read_integers_behind<'a>(
    alloc: Global,
    name: &'a [u8],
    tokens: &'a [PlacedCToken],
) -> Result<(Named<'a>, &'a [PlacedCToken]), Failure<'a>>
    ensures read { Gives (λ p. (seen_named p.0, shown p.1.now)) result (reader.integers_behind name.now (shown tokens.now)) }
    ensures named { IfOk result (λ p. p.0.name.now ≡ name.now) }
{
    let (count, rest) = bracketed(tokens)?;
    let (values, rest) = read_numbers(alloc, count, rest)?;
    Ok((external_integers(alloc, name, count, values)?, rest))
}

/// Behind `integer`.
#[tactic(auto, unfolding(c_file_readers::specs::ObjectReader::integers))]
fn integers<'a>(
    alloc: Global,
    scope: &CScope,
    tokens: &'a [PlacedCToken],
) -> Result<(Named<'a>, &'a [PlacedCToken]), Failure<'a>>
    ensures read { Gives (λ p. (seen_named p.0, shown p.1.now)) result (reader.integers (is_new (file_here_of scope.now)) (shown tokens.now)) }
    ensures fresh { IfOk result (λ p. is_among p.0.name.now (file_here_of scope.now) ≡ false) }
{
    let (name, rest) = a_name_of_the_file(scope, tokens)?;
    read_integers_behind(alloc, name, rest)
}

/// Behind the name of an external array of characters: their number, and the string that they start with.
///
/// # Errors
///
/// The tokens from the first one on with which nothing goes on, and from the string on where it is longer than the array; or want of memory.
#[tactic(auto, unfolding(c_file_readers::specs::ObjectReader::characters_behind))]
pub fn read_characters_behind<'a>(
    alloc: Global,
    name: &'a [u8],
    tokens: &'a [PlacedCToken],
) -> Result<(Named<'a>, &'a [PlacedCToken]), Failure<'a>>
    ensures read { Gives (λ p. (seen_named p.0, shown p.1.now)) result (reader.characters_behind name.now (shown tokens.now)) }
    ensures named { IfOk result (λ p. p.0.name.now ≡ name.now) }
{
    let (count, rest) = bracketed(tokens)?;
    let (bytes, rest) = read_text(alloc, count, rest)?;
    Ok((external_characters(alloc, name, count, bytes)?, rest))
}

/// Behind `char`.
#[tactic(auto, unfolding(c_file_readers::specs::ObjectReader::characters))]
fn characters<'a>(
    alloc: Global,
    scope: &CScope,
    tokens: &'a [PlacedCToken],
) -> Result<(Named<'a>, &'a [PlacedCToken]), Failure<'a>>
    ensures read { Gives (λ p. (seen_named p.0, shown p.1.now)) result (reader.characters (is_new (file_here_of scope.now)) (shown tokens.now)) }
    ensures fresh { IfOk result (λ p. is_among p.0.name.now (file_here_of scope.now) ≡ false) }
{
    let (name, rest) = a_name_of_the_file(scope, tokens)?;
    read_characters_behind(alloc, name, rest)
}

/// Behind a word that begins an external object.
#[tactic(auto, unfolding(c_file_readers::specs::ObjectReader::object_by, crate::specs::Endings::seen_object_lead))]
fn object_by<'a>(
    alloc: Global,
    scope: &CScope,
    lead: ObjectLead,
    tokens: &'a [PlacedCToken],
) -> Result<(Named<'a>, &'a [PlacedCToken]), Failure<'a>>
    ensures read { Gives (λ p. (seen_named p.0, shown p.1.now)) result (reader.object_by (is_new (file_here_of scope.now)) (shown tokens.now) (seen_object_lead lead)) }
    ensures fresh { IfOk result (λ p. is_among p.0.name.now (file_here_of scope.now) ≡ false) }
{
    match lead {
        ObjectLead::OfIntegers => integers(alloc, scope, tokens),
        ObjectLead::OfCharacters => characters(alloc, scope, tokens),
    }
}

/// An external object, with the name that it declares, and the tokens behind it (C89, 3.7.2). The file does not declare the name before.
///
/// # Errors
///
/// The tokens from the first one on with which nothing goes on, or want of memory.
#[tactic(auto, unfolding(c_file_readers::specs::ObjectReader::an_object))]
pub fn read_object<'a>(
    alloc: Global,
    scope: &CScope,
    tokens: &'a [PlacedCToken],
) -> Result<(Named<'a>, &'a [PlacedCToken]), Failure<'a>>
    ensures read { Gives (λ p. (seen_named p.0, shown p.1.now)) result (reader.an_object (is_new (file_here_of scope.now)) (shown tokens.now)) }
    ensures fresh { IfOk result (λ p. is_among p.0.name.now (file_here_of scope.now) ≡ false) }
{
    let (lead, rest) = object_lead(tokens)?;
    object_by(alloc, scope, lead, rest)
}

/// Behind the name of a constant: its value.
#[tactic(auto, unfolding(c_file_readers::specs::ObjectReader::constant_behind, c_lexer::specs::SeenTokens::sign_codes))]
fn constant_behind<'a>(
    alloc: Global,
    name: &'a [u8],
    tokens: &'a [PlacedCToken],
) -> Result<(NamedConstant<'a>, &'a [PlacedCToken]), Failure<'a>>
    ensures read { Gives (λ p. (p.0.constant, shown p.1.now)) result (reader.constant_behind name.now (shown tokens.now)) }
    ensures named { IfOk result (λ p. p.0.name.now ≡ name.now) }
    ensures same { IfOk result (λ p. p.0.constant.name ≡ name.now) }
{
    let rest = a_sign(CSign::Assign, tokens)?;
    let (value, rest) = read_value(rest)?;
    let rest = a_sign(CSign::Semicolon, rest)?;
    Ok((constant(alloc, name, value)?, rest))
}

/// A constant, `static integer name = value;`, with the name that it declares, and the tokens behind it (C89, 3.5.1 and 3.5.7). The file does not
/// declare the name before.
///
/// # Errors
///
/// The tokens from the first one on with which nothing goes on, or want of memory.
#[tactic(auto, unfolding(c_file_readers::specs::ObjectReader::a_constant))]
pub fn read_constant<'a>(
    alloc: Global,
    scope: &CScope,
    tokens: &'a [PlacedCToken],
) -> Result<(NamedConstant<'a>, &'a [PlacedCToken]), Failure<'a>>
    ensures read { Gives (λ p. (p.0.constant, shown p.1.now)) result (reader.a_constant (is_new (file_here_of scope.now)) (shown tokens.now)) }
    ensures same { IfOk result (λ p. p.0.name.now ≡ p.0.constant.name) }
    ensures fresh { IfOk result (λ p. is_among p.0.name.now (file_here_of scope.now) ≡ false) }
{
    let rest = a_word(b"static", tokens)?;
    let rest = a_word(b"integer", rest)?;
    let (name, rest) = a_name_of_the_file(scope, rest)?;
    constant_behind(alloc, name, rest)
}
