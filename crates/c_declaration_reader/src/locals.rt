//! Declarations at the head of a function (C89, 3.5).

ghost use Rattle.std.specs.Prelude.{◌≡◌, false, IfOk};
ghost use Rattle.c_tree.specs.CWords.{is_among};
ghost use Rattle.c_tree.specs.declared.declaration.CLocal.TheVariants as local;
ghost use Rattle.c_readers.specs.DeclarationReader as reader;
ghost use Rattle.c_readers.specs.DeclarationReader.{is_new};
ghost use Rattle.c_scope.specs.ScopeSeen.{scope_of, here_of};
ghost use Rattle.c_expression_reader.specs.Readings.{shown, Gives};
ghost use Rattle.c_declaration_reader.specs.Endings.{seen_plain_end, seen_local_lead};
ghost use Rattle.c_declaration_reader.specs.SeenDeclarations.{seen_declared};

use crate::endings::{PlainEnd, plain_end};
use crate::images::bracketed;
use crate::lasting::lasting;
use crate::leads::LocalLead;
use crate::nodes::{Declared, addresses, chars, external, number, numbers};
use crate::types::{read_argument_types, read_result_type};
use crate::wanted::{a_length, a_name_of_the_function};
use c_expression_reader::{Failure, a_sign};
use c_lexer::{CSign, PlacedCToken};
use c_scope::CScope;
use c_tree::types::NumberType;
use std::alloc::Global;

/// Behind `extern`: so many types of arguments at most.
#[tactic(auto, using(crate::proofs::WordSteps::extern_is), unfolding(c_lexer::specs::SeenTokens::sign_codes))]
fn outside<'a>(
    alloc: Global,
    scope: &CScope,
    tokens: &'a [PlacedCToken],
    most: usize,
) -> Result<(Declared<'a>, &'a [PlacedCToken]), Failure<'a>>
    ensures { Gives (λ p. (seen_declared p.0, shown p.1.now)) result (reader.extern (is_new (here_of scope.now)) most (shown tokens.now)) }
{
    let (of, rest) = read_result_type(tokens)?;
    let (name, rest) = a_name_of_the_function(scope, rest)?;
    let rest = a_sign(CSign::OpenParenthesis, rest)?;
    let (types, rest) = read_argument_types(alloc, rest, most)?;
    let rest = a_sign(CSign::Semicolon, rest)?;
    Ok((external(alloc, of, name, types)?, rest))
}

/// Behind the opening bracket of an array of numbers.
#[tactic(auto, unfolding(c_readers::specs::DeclarationReader::plain_numbers, c_lexer::specs::SeenTokens::sign_codes))]
fn with_length<'a>(
    alloc: Global,
    of: NumberType,
    name: &'a [u8],
    tokens: &'a [PlacedCToken],
) -> Result<(Declared<'a>, &'a [PlacedCToken]), Failure<'a>>
    ensures { Gives (λ p. (seen_declared p.0, shown p.1.now)) result (reader.plain_numbers of name.now (shown tokens.now)) }
{
    let (count, rest) = a_length(tokens)?;
    let rest = a_sign(CSign::CloseBracket, rest)?;
    let rest = a_sign(CSign::Semicolon, rest)?;
    Ok((numbers(alloc, of, name, count)?, rest))
}

/// Behind the name of a number, and the sign behind the name.
#[tactic(auto, unfolding(c_readers::specs::DeclarationReader::plain_number_by, crate::specs::Endings::seen_plain_end))]
fn number_by<'a>(
    alloc: Global,
    of: NumberType,
    name: &'a [u8],
    end: PlainEnd,
    tokens: &'a [PlacedCToken],
) -> Result<(Declared<'a>, &'a [PlacedCToken]), Failure<'a>>
    ensures { Gives (λ p. (seen_declared p.0, shown p.1.now)) result (reader.plain_number_by of name.now (shown tokens.now) (seen_plain_end end)) }
{
    match end {
        PlainEnd::Alone => Ok((number(alloc, of, name)?, tokens)),
        PlainEnd::Several => with_length(alloc, of, name, tokens),
    }
}

/// Behind the type of a number, or of an array of them.
#[tactic(auto, unfolding(c_readers::specs::DeclarationReader::plain_number))]
fn a_number<'a>(
    alloc: Global,
    scope: &CScope,
    of: NumberType,
    tokens: &'a [PlacedCToken],
) -> Result<(Declared<'a>, &'a [PlacedCToken]), Failure<'a>>
    ensures { Gives (λ p. (seen_declared p.0, shown p.1.now)) result (reader.plain_number (is_new (here_of scope.now)) of (shown tokens.now)) }
{
    let (name, rest) = a_name_of_the_function(scope, tokens)?;
    let (end, rest) = plain_end(rest)?;
    number_by(alloc, of, name, end, rest)
}

/// Behind the type of an array of characters.
#[tactic(auto, unfolding(c_readers::specs::DeclarationReader::an_array, c_lexer::specs::SeenTokens::sign_codes))]
fn some_chars<'a>(
    alloc: Global,
    scope: &CScope,
    tokens: &'a [PlacedCToken],
) -> Result<(Declared<'a>, &'a [PlacedCToken]), Failure<'a>>
    ensures { Gives (λ p. (seen_declared p.0, shown p.1.now)) result (reader.an_array (is_new (here_of scope.now)) local.Chars (shown tokens.now)) }
{
    let (name, rest) = a_name_of_the_function(scope, tokens)?;
    let (count, rest) = bracketed(rest)?;
    let rest = a_sign(CSign::Semicolon, rest)?;
    Ok((chars(alloc, name, count)?, rest))
}

/// Behind the type of an array of addresses.
#[tactic(auto, unfolding(c_readers::specs::DeclarationReader::an_array, c_lexer::specs::SeenTokens::sign_codes))]
fn some_addresses<'a>(
    alloc: Global,
    scope: &CScope,
    tokens: &'a [PlacedCToken],
) -> Result<(Declared<'a>, &'a [PlacedCToken]), Failure<'a>>
    ensures { Gives (λ p. (seen_declared p.0, shown p.1.now)) result (reader.an_array (is_new (here_of scope.now)) local.Addresses (shown tokens.now)) }
{
    let (name, rest) = a_name_of_the_function(scope, tokens)?;
    let (count, rest) = bracketed(rest)?;
    let rest = a_sign(CSign::Semicolon, rest)?;
    Ok((addresses(alloc, name, count)?, rest))
}

/// The declaration behind a word that begins one.
#[tactic(auto, unfolding(c_readers::specs::DeclarationReader::local_by, crate::specs::Endings::seen_local_lead))]
fn local_by<'a>(
    alloc: Global,
    scope: &CScope,
    lead: LocalLead,
    tokens: &'a [PlacedCToken],
    most: usize,
) -> Result<(Declared<'a>, &'a [PlacedCToken]), Failure<'a>>
    ensures { Gives (λ p. (seen_declared p.0, shown p.1.now)) result (reader.local_by (scope_of scope.now) (is_new (here_of scope.now)) most (shown tokens.now) (seen_local_lead lead)) }
{
    match lead {
        LocalLead::External => outside(alloc, scope, tokens, most),
        LocalLead::Lasting => lasting(alloc, scope, tokens),
        LocalLead::Numbers(of) => a_number(alloc, scope, of, tokens),
        LocalLead::Chars => some_chars(alloc, scope, tokens),
        LocalLead::Addresses => some_addresses(alloc, scope, tokens),
    }
}

/// The same, of a name that is not declared yet.
pub(crate) fn new_local<'a>(
    alloc: Global,
    scope: &CScope,
    lead: LocalLead,
    tokens: &'a [PlacedCToken],
    most: usize,
) -> Result<(Declared<'a>, &'a [PlacedCToken]), Failure<'a>>
    ensures read { Gives (λ p. (seen_declared p.0, shown p.1.now)) result (reader.local_by (scope_of scope.now) (is_new (here_of scope.now)) most (shown tokens.now) (seen_local_lead lead)) }
    ensures fresh { IfOk result (λ p. is_among p.0.name.now (here_of scope.now) ≡ false) }
{
    local_by(alloc, scope, lead, tokens, most)
}
