//! Calls and their arguments (C89, 3.3.2.2).

ghost use Rattle.std.specs.Prelude.{◌≡◌, [], codes};
ghost use Rattle.c_readers.specs.CallReader as reader;
ghost use Rattle.c_readers.specs.ExpressionReader.{expression};
ghost use Rattle.c_readers.specs.ListReader.{separated};
ghost use Rattle.c_scope.specs.ScopeSeen.{scope_of};
ghost use Rattle.c_expression_reader.specs.Readings.{shown, Gives};

use crate::expressions::read_expression;
use crate::failure::Failure;
use crate::nodes::copied;
use crate::wanted::{a_pointer, a_sign, is_closed, is_same};
use c_lexer::{CSign, CToken, PlacedCToken};
use c_scope::CScope;
use c_tree::expression::{CCall, CExpr};
use plain_data::Items;
use std::alloc::Global;

/// One argument or more, up to the closing parenthesis: so many at most.
#[tactic(auto, using(crate::proofs::ListSteps::list_steps), unfolding(c_lexer::specs::SeenTokens::sign_codes))]
fn some_arguments<'a>(
    alloc: Global,
    scope: &CScope,
    tokens: &'a [PlacedCToken],
    nests: usize,
    count: usize,
) -> Result<(Items<CExpr>, &'a [PlacedCToken]), Failure<'a>>
    ensures { Gives (λ p. (p.0, shown p.1.now)) result (separated (expression (scope_of scope.now) nests 0) (codes ")") count [] (shown tokens.now)) }
{
    let mut found = Items::new(alloc);
    let mut rest = tokens;
    let mut left = count;
    while left > 0 {
        left -= 1;
        let (one, behind) = read_expression(alloc, scope, rest, 0, nests)?;
        found.push(one)?;
        let (closed, behind) = is_closed(CSign::CloseParenthesis, behind)?;
        if closed {
            return Ok((found, behind));
        }
        rest = behind;
    }
    Err(Failure::Memory)
}

/// The arguments of a call, up to the closing parenthesis: so many at most.
///
/// # Errors
///
/// The tokens from the first one on with which nothing goes on, or want of memory.
#[tactic(auto, unfolding(crate::specs::Readings::shown, c_lexer::specs::SeenTokens::seen, c_lexer::specs::SeenTokens::sign_codes, c_readers::specs::CallReader::arguments, c_readers::specs::CallReader::by_closing))]
pub fn read_arguments<'a>(
    alloc: Global,
    scope: &CScope,
    tokens: &'a [PlacedCToken],
    nests: usize,
    count: usize,
) -> Result<(Items<CExpr>, &'a [PlacedCToken]), Failure<'a>>
    ensures { Gives (λ p. (p.0, shown p.1.now)) result (reader.arguments (scope_of scope.now) nests count (shown tokens.now)) }
{
    match tokens {
        [
            PlacedCToken {
                token: CToken::Sign(sign),
                ..
            },
            rest @ ..,
        ] if is_same(*sign, CSign::CloseParenthesis) => Ok((Items::new(alloc), rest)),
        _ => some_arguments(alloc, scope, tokens, nests, count),
    }
}

/// What stands behind the name of a function that is called, or behind the parenthesis that closes the name of a parameter.
#[tactic(auto, unfolding(c_lexer::specs::SeenTokens::sign_codes, c_readers::specs::CallReader::called))]
fn called<'a>(
    alloc: Global,
    scope: &CScope,
    through: bool,
    name: &[u8],
    tokens: &'a [PlacedCToken],
    nests: usize,
    count: usize,
) -> Result<(CCall, &'a [PlacedCToken]), Failure<'a>>
    ensures { Gives (λ p. (p.0, shown p.1.now)) result (reader.called (scope_of scope.now) nests count through name.now (shown tokens.now)) }
{
    let rest = a_sign(CSign::OpenParenthesis, tokens)?;
    let (arguments, rest) = read_arguments(alloc, scope, rest, nests, count)?;
    let name = copied(alloc, name)?;
    let call = CCall {
        through,
        name,
        arguments,
    };
    Ok((call, rest))
}

/// Behind the opening parenthesis and the star of a call through a parameter: its name, the closing parenthesis, and the arguments.
#[tactic(auto, unfolding(c_lexer::specs::SeenTokens::sign_codes, c_readers::specs::CallReader::through_a_parameter))]
fn through_a_parameter<'a>(
    alloc: Global,
    scope: &CScope,
    tokens: &'a [PlacedCToken],
    nests: usize,
    count: usize,
) -> Result<(CCall, &'a [PlacedCToken]), Failure<'a>>
    ensures { Gives (λ p. (p.0, shown p.1.now)) result (reader.through_a_parameter (scope_of scope.now) nests count (shown tokens.now)) }
{
    let (name, rest) = a_pointer(scope, tokens)?;
    let rest = a_sign(CSign::CloseParenthesis, rest)?;
    called(alloc, scope, true, name, rest, nests, count)
}

/// Behind the opening parenthesis of a call through a parameter.
#[tactic(auto, unfolding(c_lexer::specs::SeenTokens::sign_codes, c_readers::specs::CallReader::starred))]
fn starred<'a>(
    alloc: Global,
    scope: &CScope,
    tokens: &'a [PlacedCToken],
    nests: usize,
    count: usize,
) -> Result<(CCall, &'a [PlacedCToken]), Failure<'a>>
    ensures { Gives (λ p. (p.0, shown p.1.now)) result (reader.starred (scope_of scope.now) nests count (shown tokens.now)) }
{
    let rest = a_sign(CSign::Star, tokens)?;
    through_a_parameter(alloc, scope, rest, nests, count)
}

/// A call, and the tokens behind it: by the name of a function, or through a parameter that points to one. It has so many arguments at most.
///
/// # Errors
///
/// The tokens from the first one on with which nothing goes on, or want of memory.
#[tactic(auto, unfolding(crate::specs::Readings::shown, c_lexer::specs::SeenTokens::seen, c_lexer::specs::SeenTokens::sign_codes, c_readers::specs::CallReader::call, c_readers::specs::CallReader::by_function, c_readers::specs::CallReader::by_opening))]
pub fn read_call<'a>(
    alloc: Global,
    scope: &CScope,
    tokens: &'a [PlacedCToken],
    nests: usize,
    count: usize,
) -> Result<(CCall, &'a [PlacedCToken]), Failure<'a>>
    ensures { Gives (λ p. (p.0, shown p.1.now)) result (reader.call (scope_of scope.now) nests count (shown tokens.now)) }
{
    let [first, rest @ ..] = tokens else {
        return Err(Failure::NotC(tokens));
    };
    match &first.token {
        CToken::Word(name) if scope.is_function(name.as_slice()) => {
            called(alloc, scope, false, name.as_slice(), rest, nests, count)
        }
        CToken::Sign(sign) if is_same(*sign, CSign::OpenParenthesis) && scope.has_pointer() => {
            starred(alloc, scope, rest, nests, count)
        }
        _ => Err(Failure::NotC(tokens)),
    }
}
