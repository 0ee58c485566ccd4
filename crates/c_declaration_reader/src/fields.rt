//! The fields of a list block (C89, 3.4 and 3.5.7).

ghost use Rattle.std.specs.Prelude.{◌≡◌, ◌++◌, [], codes, length};
ghost use Rattle.c_tree.specs.CWords.{is_among};
ghost use Rattle.c_tree.specs.Access.{fields_of};
ghost use Rattle.c_readers.specs.ValueReader.{bounded};
ghost use Rattle.c_readers.specs.DeclarationReader as reader;
ghost use Rattle.c_scope.specs.ScopeSeen.{scope_of};
ghost use Rattle.c_expression_reader.specs.Readings.{shown, Gives};
ghost use Rattle.c_declaration_reader.specs.Items.{number_field};

use crate::nodes::{name_field, string_field};
use crate::values::read_value;
use crate::wanted::is_closed_within;
use c_expression_reader::Failure;
use c_lexer::{CSign, CToken, PlacedCToken};
use c_scope::CScope;
use c_tree::declaration::CField;
use c_tree::types::ListType;
use plain_data::Items;
use std::alloc::Global;

/// How many fields a list block has at most.
pub(crate) fn field_count(of: ListType) -> u32
    ensures { result ≡ length (fields_of of) }
{
    match of {
        ListType::Transfer => 5,
        ListType::Internal => 6,
        ListType::Open => 9,
        ListType::Close => 3,
        ListType::Position => 2,
    }
}

/// Whether a name is that of an array that lasts or of a function, whose address is a constant.
#[tactic(auto, using(crate::proofs::ScopeSteps::among_either))]
fn is_start(scope: &CScope, name: &[u8]) -> bool
    ensures { result ≡ is_among name.now ((scope_of scope.now).arrays ++ (scope_of scope.now).functions) }
{
    scope.is_array(name) || scope.is_function(name)
}

/// A field that holds a number, and the tokens behind it.
#[tactic(auto, unfolding(crate::specs::Items::number_field))]
fn number_field<'a>(tokens: &'a [PlacedCToken]) -> Result<(CField, &'a [PlacedCToken]), Failure<'a>>
    ensures { Gives (λ p. (p.0, shown p.1.now)) result (number_field (shown tokens.now)) }
{
    let (value, rest) = read_value(tokens)?;
    Ok((CField::Number(value), rest))
}

/// A field, and the tokens behind it.
#[tactic(auto, unfolding(c_expression_reader::specs::Readings::shown, c_lexer::specs::SeenTokens::seen, c_readers::specs::DeclarationReader::a_field, c_readers::specs::ValueReader::value, crate::specs::Items::number_field))]
fn a_field<'a>(
    alloc: Global,
    scope: &CScope,
    tokens: &'a [PlacedCToken],
) -> Result<(CField, &'a [PlacedCToken]), Failure<'a>>
    ensures { Gives (λ p. (p.0, shown p.1.now)) result (reader.a_field (scope_of scope.now) (shown tokens.now)) }
{
    let [first, rest @ ..] = tokens else {
        return Err(Failure::NotC(tokens));
    };
    match &first.token {
        CToken::Word(name) => if is_start(scope, name.as_slice()) {
            Ok((name_field(alloc, name.as_slice())?, rest))
        } else {
            Err(Failure::NotC(tokens))
        },
        CToken::Quoted(bytes) => Ok((string_field(alloc, bytes.as_slice())?, rest)),
        CToken::Digits(_) | CToken::Sign(_) => number_field(tokens),
        CToken::Including | CToken::Bad => Err(Failure::NotC(tokens)),
    }
}

/// One field or more, up to the closing brace: so many at most.
#[tactic(auto, using(crate::proofs::BoundedSteps::bounded_steps), unfolding(c_lexer::specs::SeenTokens::sign_codes))]
pub(crate) fn some_fields<'a>(
    alloc: Global,
    scope: &CScope,
    most: u32,
    tokens: &'a [PlacedCToken],
) -> Result<(Items<CField>, &'a [PlacedCToken]), Failure<'a>>
    ensures { Gives (λ p. (p.0, shown p.1.now)) result (bounded (reader.a_field (scope_of scope.now)) (codes "}") most [] (shown tokens.now)) }
{
    let mut found = Items::new(alloc);
    let mut rest = tokens;
    let mut left = most;
    while left > 0 {
        left -= 1;
        let (one, behind) = a_field(alloc, scope, rest)?;
        found.push(one)?;
        let (closed, behind) = is_closed_within(left, CSign::CloseBrace, behind)?;
        if closed {
            return Ok((found, behind));
        }
        rest = behind;
    }
    Err(Failure::NotC(rest))
}
