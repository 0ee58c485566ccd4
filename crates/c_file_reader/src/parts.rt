//! One part of a file: an external object, a constant or a function (C89, 3.7).

ghost use Rattle.std.specs.Prelude.{◌≡◌, [], codes, bytes_eq, IfOk, OnOk};
ghost use Rattle.c_lexer.specs.SeenTokens.{sign_codes};
ghost use Rattle.c_file_readers.specs.c_statement_readers.PartReader.{starts_with};
ghost use Rattle.c_file_readers.specs.FileReader as reader;
ghost use Rattle.c_scope.specs.ScopeSeen.{here_of, file_scope_of, file_here_of};
ghost use Rattle.c_expression_reader.specs.Readings.{shown, Gives};
ghost use Rattle.c_file_reader.specs.PartsSeen.{seen_part, object_in, constant_in, object_part, constant_part, function_part, one_part, is_end};

use crate::functions::read_function;
use c_declaration_reader::{Named, NamedConstant, read_constant, read_object};
use c_expression_reader::Failure;
use c_lexer::{CSign, CToken, PlacedCToken};
use c_scope::{CScope, NameClass};
use c_tree::file::{CConstant, CFile, CFunction, CObject};
use plain_data::Items;
use std::alloc::{AllocError, Global};

/// What may stand at a place of a file, given what stood before it.
#[derive(Clone, Copy)]
pub(crate) enum Part {
    /// All parts.
    Objects,
    /// Constants and functions.
    Constants,
    /// Functions alone.
    Functions,
}

/// A file of no parts.
pub(crate) fn no_parts(alloc: Global) -> CFile
    ensures { result ≡ reader.no_parts }
{
    CFile {
        objects: Items::new(alloc),
        constants: Items::new(alloc),
        functions: Items::new(alloc),
    }
}

/// Whether a sign is an opening bracket.
#[tactic(auto, unfolding(c_lexer::specs::SeenTokens::sign_codes))]
fn is_open_bracket(sign: CSign) -> bool
    ensures { result ≡ bytes_eq (sign_codes sign) (codes "[") }
{
    matches!(sign, CSign::OpenBracket)
}

/// Whether an opening bracket stands first.
#[tactic(auto, unfolding(c_expression_reader::specs::Readings::shown, c_lexer::specs::SeenTokens::seen))]
fn starts_with_bracket(tokens: &[PlacedCToken]) -> bool
    ensures { result ≡ starts_with (codes "[") (shown tokens.now) }
{
    match tokens {
        [
            PlacedCToken {
                token: CToken::Sign(sign),
                ..
            },
            ..
        ] => is_open_bracket(*sign),
        _ => false,
    }
}

/// Whether a word stands first, with an opening bracket behind it.
#[tactic(auto, using(crate::proofs::PartSteps::array_named), unfolding(c_expression_reader::specs::Readings::shown, c_lexer::specs::SeenTokens::seen))]
fn names_array(tokens: &[PlacedCToken]) -> bool
    ensures { result ≡ reader.names_array (shown tokens.now) }
{
    match tokens {
        [
            PlacedCToken {
                token: CToken::Word(_),
                ..
            },
            rest @ ..,
        ] => starts_with_bracket(rest),
        _ => false,
    }
}

/// Whether an external object begins.
#[tactic(auto, unfolding(c_expression_reader::specs::Readings::shown, c_lexer::specs::SeenTokens::seen))]
fn begins_object(tokens: &[PlacedCToken]) -> bool
    ensures { result ≡ reader.begins_object (shown tokens.now) }
{
    match tokens {
        [
            PlacedCToken {
                token: CToken::Word(text),
                ..
            },
            rest @ ..,
        ] => {
            text.as_slice() == b"char".as_slice()
                || text.as_slice() == b"integer".as_slice() && names_array(rest)
        }
        _ => false,
    }
}

/// Whether a constant begins.
#[tactic(auto, unfolding(c_expression_reader::specs::Readings::shown, c_lexer::specs::SeenTokens::seen))]
fn begins_constant(tokens: &[PlacedCToken]) -> bool
    ensures { result ≡ reader.begins_constant (shown tokens.now) }
{
    match tokens {
        [
            PlacedCToken {
                token: CToken::Word(text),
                ..
            },
            ..
        ] => text.as_slice() == b"static".as_slice(),
        _ => false,
    }
}

/// Whether an external object stands at a place.
#[tactic(auto, unfolding(crate::specs::PartsSeen::seen_part))]
fn may_be_object(part: Part, tokens: &[PlacedCToken]) -> bool
    ensures { result ≡ reader.may_be_object (seen_part part) (shown tokens.now) }
{
    match part {
        Part::Objects => begins_object(tokens),
        Part::Constants | Part::Functions => false,
    }
}

/// Whether a constant stands at a place.
#[tactic(auto, unfolding(crate::specs::PartsSeen::seen_part))]
fn may_be_constant(part: Part, tokens: &[PlacedCToken]) -> bool
    ensures { result ≡ reader.may_be_constant (seen_part part) (shown tokens.now) }
{
    match part {
        Part::Objects | Part::Constants => begins_constant(tokens),
        Part::Functions => false,
    }
}

/// A file with one external object more.
fn with_object(file: CFile, one: CObject) -> Result<CFile, AllocError>
    ensures { IfOk result (λ made. made ≡ reader.with_one_object one file) }
{
    let mut file = file;
    file.objects.push(one)?;
    Ok(file)
}

/// A file with one constant more.
fn with_constant(file: CFile, one: CConstant) -> Result<CFile, AllocError>
    ensures { IfOk result (λ made. made ≡ reader.with_one_constant one file) }
{
    let mut file = file;
    file.constants.push(one)?;
    Ok(file)
}

/// A file with one function more.
fn with_function(file: CFile, one: CFunction) -> Result<CFile, AllocError>
    ensures { IfOk result (λ made. made ≡ reader.with_one_function one file) }
{
    let mut file = file;
    file.functions.push(one)?;
    Ok(file)
}

/// An external object, which is declared in the file, and the tokens behind it.
#[tactic(auto, unfolding(crate::specs::PartsSeen::object_in, c_scope::specs::NamesSeen::with_name))]
fn new_object<'a>(
    alloc: Global,
    scope: &mut CScope<'a>,
    tokens: &'a [PlacedCToken],
) -> Result<(CObject, &'a [PlacedCToken]), Failure<'a>>
    requires outside { here_of scope.old ≡ [] }
    ensures read { Gives (λ p. ((p.0, file_scope_of scope.new, file_here_of scope.new), shown p.1.now)) result (object_in (file_scope_of scope.old) (file_here_of scope.old) (shown tokens.now)) }
    ensures outside { OnOk result (here_of scope.new ≡ []) }
{
    let (one, rest) = read_object(alloc, scope, tokens)?;
    let Named { object, name } = one;
    scope.declare_in_file(name, NameClass::Array)?;
    Ok((object, rest))
}

/// A constant, which is declared in the file, and the tokens behind it.
#[tactic(auto, unfolding(crate::specs::PartsSeen::constant_in, c_scope::specs::NamesSeen::with_name))]
fn new_constant<'a>(
    alloc: Global,
    scope: &mut CScope<'a>,
    tokens: &'a [PlacedCToken],
) -> Result<(CConstant, &'a [PlacedCToken]), Failure<'a>>
    requires outside { here_of scope.old ≡ [] }
    ensures read { Gives (λ p. ((p.0, file_scope_of scope.new, file_here_of scope.new), shown p.1.now)) result (constant_in (file_scope_of scope.old) (file_here_of scope.old) (shown tokens.now)) }
    ensures outside { OnOk result (here_of scope.new ≡ []) }
{
    let (one, rest) = read_constant(alloc, scope, tokens)?;
    let NamedConstant { constant, name } = one;
    scope.declare_in_file(name, NameClass::Object)?;
    Ok((constant, rest))
}

/// An external object, with the file behind it and what may follow.
#[tactic(auto, unfolding(crate::specs::PartsSeen::object_part, crate::specs::PartsSeen::seen_part))]
fn object_part<'a>(
    alloc: Global,
    scope: &mut CScope<'a>,
    file: CFile,
    tokens: &'a [PlacedCToken],
) -> Result<((Part, CFile), &'a [PlacedCToken]), Failure<'a>>
    requires outside { here_of scope.old ≡ [] }
    ensures read { Gives (λ p. ((seen_part p.0.0, file_scope_of scope.new, file_here_of scope.new, p.0.1), shown p.1.now)) result (object_part (file_scope_of scope.old) (file_here_of scope.old) file (shown tokens.now)) }
    ensures outside { OnOk result (here_of scope.new ≡ []) }
{
    let (one, rest) = new_object(alloc, scope, tokens)?;
    Ok(((Part::Objects, with_object(file, one)?), rest))
}

/// A constant, with the file behind it and what may follow.
#[tactic(auto, unfolding(crate::specs::PartsSeen::constant_part, crate::specs::PartsSeen::seen_part))]
fn constant_part<'a>(
    alloc: Global,
    scope: &mut CScope<'a>,
    file: CFile,
    tokens: &'a [PlacedCToken],
) -> Result<((Part, CFile), &'a [PlacedCToken]), Failure<'a>>
    requires outside { here_of scope.old ≡ [] }
    ensures read { Gives (λ p. ((seen_part p.0.0, file_scope_of scope.new, file_here_of scope.new, p.0.1), shown p.1.now)) result (constant_part (file_scope_of scope.old) (file_here_of scope.old) file (shown tokens.now)) }
    ensures outside { OnOk result (here_of scope.new ≡ []) }
{
    let (one, rest) = new_constant(alloc, scope, tokens)?;
    Ok(((Part::Constants, with_constant(file, one)?), rest))
}

/// A function, with the file behind it and what may follow.
#[tactic(auto, unfolding(crate::specs::PartsSeen::function_part, crate::specs::PartsSeen::seen_part))]
fn function_part<'a>(
    alloc: Global,
    scope: &mut CScope<'a>,
    file: CFile,
    tokens: &'a [PlacedCToken],
    nests: usize,
) -> Result<((Part, CFile), &'a [PlacedCToken]), Failure<'a>>
    requires outside { here_of scope.old ≡ [] }
    ensures read { Gives (λ p. ((seen_part p.0.0, file_scope_of scope.new, file_here_of scope.new, p.0.1), shown p.1.now)) result (function_part nests (file_scope_of scope.old) (file_here_of scope.old) file (shown tokens.now)) }
    ensures outside { OnOk result (here_of scope.new ≡ []) }
{
    let (one, rest) = read_function(alloc, scope, tokens, nests)?;
    Ok(((Part::Functions, with_function(file, one)?), rest))
}

/// The part that stands first, with the file behind it and what may follow, and the tokens behind it. Its name is declared in the file.
#[tactic(auto, unfolding(crate::specs::PartsSeen::one_part, crate::specs::PartsSeen::part_by))]
pub(crate) fn next_part<'a>(
    alloc: Global,
    scope: &mut CScope<'a>,
    part: Part,
    file: CFile,
    tokens: &'a [PlacedCToken],
    nests: usize,
) -> Result<((Part, CFile), &'a [PlacedCToken]), Failure<'a>>
    requires outside { here_of scope.old ≡ [] }
    ensures read { Gives (λ p. ((seen_part p.0.0, file_scope_of scope.new, file_here_of scope.new, p.0.1), shown p.1.now)) result (one_part nests (seen_part part) (file_scope_of scope.old) (file_here_of scope.old) file (shown tokens.now)) }
    ensures outside { OnOk result (here_of scope.new ≡ []) }
{
    if may_be_object(part, tokens) {
        object_part(alloc, scope, file, tokens)
    } else if may_be_constant(part, tokens) {
        constant_part(alloc, scope, file, tokens)
    } else {
        function_part(alloc, scope, file, tokens, nests)
    }
}

/// Whether no token is left.
#[tactic(auto, unfolding(c_expression_reader::specs::Readings::shown))]
pub(crate) fn is_end(tokens: &[PlacedCToken]) -> bool
    ensures { result ≡ is_end (shown tokens.now) }
{
    match tokens {
        [] => true,
        [_, ..] => false,
    }
}
