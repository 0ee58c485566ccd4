//! Types (C89, 3.5.2).

ghost use Rattle.std.specs.Prelude.{◌≡◌, true, [], codes, drop};
ghost use Rattle.c_tree.specs.CWords.{parameter_tokens, argument_tokens};
ghost use Rattle.c_readers.specs.Readers.{lookup, all_stand};
ghost use Rattle.c_readers.specs.ListReader.{separated};
ghost use Rattle.c_readers.specs.ValueReader.{a_word_of};
ghost use Rattle.c_readers.specs.TypeReader as reader;
ghost use Rattle.c_expression_reader.specs.Readings.{shown, Gives};

use c_expression_reader::{Failure, a_sign, is_closed};
use c_lexer::{CSign, CToken, PlacedCToken};
use c_tree::types::{ArgumentType, FunctionType, ListType, ParameterType, ResultType};
use plain_data::Items;
use std::alloc::Global;

/// The result that a word names, if it names one.
fn listed_result(text: &[u8]) -> Option<ResultType>
    ensures { result ≡ lookup text.now reader.result_words }
{
    if text == b"int".as_slice() {
        Some(ResultType::Int)
    } else if text == b"integer".as_slice() {
        Some(ResultType::Integer)
    } else if text == b"logical".as_slice() {
        Some(ResultType::Logical)
    } else if text == b"VOID".as_slice() {
        Some(ResultType::Void)
    } else {
        None
    }
}

/// What a function gives its caller, and the tokens behind the word for it (C89, 3.7.1).
///
/// # Errors
///
/// The tokens, where no such word stands first.
#[tactic(auto, unfolding(c_expression_reader::specs::Readings::shown, c_lexer::specs::SeenTokens::seen, c_readers::specs::ValueReader::a_word_of))]
pub fn read_result_type<'a>(
    tokens: &'a [PlacedCToken],
) -> Result<(ResultType, &'a [PlacedCToken]), Failure<'a>>
    ensures { Gives (λ p. (p.0, shown p.1.now)) result (a_word_of reader.result_words (shown tokens.now)) }
{
    match tokens {
        [
            PlacedCToken {
                token: CToken::Word(text),
                ..
            },
            rest @ ..,
        ] => match listed_result(text.as_slice()) {
            Some(of) => Ok((of, rest)),
            None => Err(Failure::NotC(tokens)),
        },
        _ => Err(Failure::NotC(tokens)),
    }
}

/// The type of a parameter that begins with a word, if one does.
fn listed_parameter(text: &[u8]) -> Option<ParameterType>
    ensures { result ≡ lookup text.now reader.parameter_words }
{
    if text == b"integer".as_slice() {
        Some(ParameterType::Integers)
    } else if text == b"logical".as_slice() {
        Some(ParameterType::Logicals)
    } else if text == b"char".as_slice() {
        Some(ParameterType::Chars)
    } else if text == b"ftnlen".as_slice() {
        Some(ParameterType::Length)
    } else if text == b"int".as_slice() {
        Some(ParameterType::Int)
    } else if text == b"S_fp".as_slice() {
        Some(ParameterType::Function(FunctionType::Subroutine))
    } else if text == b"I_fp".as_slice() {
        Some(ParameterType::Function(FunctionType::Integer))
    } else if text == b"L_fp".as_slice() {
        Some(ParameterType::Function(FunctionType::Logical))
    } else if text == b"U_fp".as_slice() {
        Some(ParameterType::Function(FunctionType::Unknown))
    } else {
        None
    }
}

/// The type of an argument that begins with a word, if one does.
fn listed_argument(text: &[u8]) -> Option<ArgumentType>
    ensures { result ≡ lookup text.now reader.argument_words }
{
    if text == b"integer".as_slice() {
        Some(ArgumentType::Parameter(ParameterType::Integers))
    } else if text == b"logical".as_slice() {
        Some(ArgumentType::Parameter(ParameterType::Logicals))
    } else if text == b"char".as_slice() {
        Some(ArgumentType::Parameter(ParameterType::Chars))
    } else if text == b"ftnlen".as_slice() {
        Some(ArgumentType::Parameter(ParameterType::Length))
    } else if text == b"int".as_slice() {
        Some(ArgumentType::Parameter(ParameterType::Int))
    } else if text == b"S_fp".as_slice() {
        Some(ArgumentType::Parameter(ParameterType::Function(FunctionType::Subroutine)))
    } else if text == b"I_fp".as_slice() {
        Some(ArgumentType::Parameter(ParameterType::Function(FunctionType::Integer)))
    } else if text == b"L_fp".as_slice() {
        Some(ArgumentType::Parameter(ParameterType::Function(FunctionType::Logical)))
    } else if text == b"U_fp".as_slice() {
        Some(ArgumentType::Parameter(ParameterType::Function(FunctionType::Unknown)))
    } else if text == b"cilist".as_slice() {
        Some(ArgumentType::List(ListType::Transfer))
    } else if text == b"icilist".as_slice() {
        Some(ArgumentType::List(ListType::Internal))
    } else if text == b"olist".as_slice() {
        Some(ArgumentType::List(ListType::Open))
    } else if text == b"cllist".as_slice() {
        Some(ArgumentType::List(ListType::Close))
    } else if text == b"alist".as_slice() {
        Some(ArgumentType::List(ListType::Position))
    } else if text == b"address".as_slice() {
        Some(ArgumentType::Addresses)
    } else {
        None
    }
}

/// The type of a parameter that begins with the word that stands first, and the tokens behind the word.
#[tactic(auto, unfolding(c_expression_reader::specs::Readings::shown, c_lexer::specs::SeenTokens::seen, c_readers::specs::ValueReader::a_word_of))]
fn a_parameter_word<'a>(
    tokens: &'a [PlacedCToken],
) -> Result<(ParameterType, &'a [PlacedCToken]), Failure<'a>>
    ensures { Gives (λ p. (p.0, shown p.1.now)) result (a_word_of reader.parameter_words (shown tokens.now)) }
{
    match tokens {
        [
            PlacedCToken {
                token: CToken::Word(text),
                ..
            },
            rest @ ..,
        ] => match listed_parameter(text.as_slice()) {
            Some(of) => Ok((of, rest)),
            None => Err(Failure::NotC(tokens)),
        },
        _ => Err(Failure::NotC(tokens)),
    }
}

/// The type of an argument that begins with the word that stands first, and the tokens behind the word.
#[tactic(auto, unfolding(c_expression_reader::specs::Readings::shown, c_lexer::specs::SeenTokens::seen, c_readers::specs::ValueReader::a_word_of))]
fn an_argument_word<'a>(
    tokens: &'a [PlacedCToken],
) -> Result<(ArgumentType, &'a [PlacedCToken]), Failure<'a>>
    ensures { Gives (λ p. (p.0, shown p.1.now)) result (a_word_of reader.argument_words (shown tokens.now)) }
{
    match tokens {
        [
            PlacedCToken {
                token: CToken::Word(text),
                ..
            },
            rest @ ..,
        ] => match listed_argument(text.as_slice()) {
            Some(of) => Ok((of, rest)),
            None => Err(Failure::NotC(tokens)),
        },
        _ => Err(Failure::NotC(tokens)),
    }
}

/// The tokens behind the type of a parameter, given those behind its word.
#[tactic(auto, unfolding(c_readers::specs::Readers::all_stand, c_lexer::specs::SeenTokens::sign_codes))]
fn behind_parameter_type<'a>(
    of: ParameterType,
    tokens: &'a [PlacedCToken],
) -> Result<&'a [PlacedCToken], Failure<'a>>
    ensures { Gives (λ rest. (tt, shown rest.now)) result (all_stand (drop 1 (parameter_tokens of)) (shown tokens.now)) }
{
    match of {
        ParameterType::Integers | ParameterType::Logicals | ParameterType::Chars => {
            a_sign(CSign::Star, tokens)
        }
        ParameterType::Length | ParameterType::Int | ParameterType::Function(_) => Ok(tokens),
    }
}

/// The tokens behind the type of an argument, given those behind its word.
#[tactic(auto, unfolding(c_readers::specs::Readers::all_stand, c_lexer::specs::SeenTokens::sign_codes))]
fn behind_argument_type<'a>(
    of: ArgumentType,
    tokens: &'a [PlacedCToken],
) -> Result<&'a [PlacedCToken], Failure<'a>>
    ensures { Gives (λ rest. (tt, shown rest.now)) result (all_stand (drop 1 (argument_tokens of)) (shown tokens.now)) }
{
    match of {
        ArgumentType::Parameter(of) => behind_parameter_type(of, tokens),
        ArgumentType::List(_) | ArgumentType::Addresses => a_sign(CSign::Star, tokens),
    }
}

/// The type of a parameter, and the tokens behind it.
#[tactic(auto, unfolding(c_readers::specs::TypeReader::parameter_type))]
pub(crate) fn parameter_type<'a>(
    tokens: &'a [PlacedCToken],
) -> Result<(ParameterType, &'a [PlacedCToken]), Failure<'a>>
    ensures { Gives (λ p. (p.0, shown p.1.now)) result (reader.parameter_type (shown tokens.now)) }
{
    let (of, rest) = a_parameter_word(tokens)?;
    let rest = behind_parameter_type(of, rest)?;
    Ok((of, rest))
}

/// The type of an argument, and the tokens behind it.
#[tactic(auto, unfolding(c_readers::specs::TypeReader::argument_type))]
fn argument_type<'a>(
    tokens: &'a [PlacedCToken],
) -> Result<(ArgumentType, &'a [PlacedCToken]), Failure<'a>>
    ensures { Gives (λ p. (p.0, shown p.1.now)) result (reader.argument_type (shown tokens.now)) }
{
    let (of, rest) = an_argument_word(tokens)?;
    let rest = behind_argument_type(of, rest)?;
    Ok((of, rest))
}

/// One type or more, up to the closing parenthesis: so many at most.
#[tactic(auto, using(c_expression_reader::proofs::ListSteps::list_steps), unfolding(c_lexer::specs::SeenTokens::sign_codes))]
fn some_types<'a>(
    alloc: Global,
    tokens: &'a [PlacedCToken],
    count: usize,
) -> Result<(Items<ArgumentType>, &'a [PlacedCToken]), Failure<'a>>
    ensures { Gives (λ p. (p.0, shown p.1.now)) result (separated reader.argument_type (codes ")") count [] (shown tokens.now)) }
{
    let mut found = Items::new(alloc);
    let mut rest = tokens;
    let mut left = count;
    while left > 0 {
        left -= 1;
        let (one, behind) = argument_type(rest)?;
        found.push(one)?;
        let (closed, behind) = is_closed(CSign::CloseParenthesis, behind)?;
        if closed {
            return Ok((found, behind));
        }
        rest = behind;
    }
    Err(Failure::Memory)
}

/// Behind `void`: the closing parenthesis.
#[tactic(auto, unfolding(c_readers::specs::TypeReader::by_void, c_lexer::specs::SeenTokens::sign_codes))]
fn no_type<'a>(
    alloc: Global,
    tokens: &'a [PlacedCToken],
) -> Result<(Items<ArgumentType>, &'a [PlacedCToken]), Failure<'a>>
    ensures { Gives (λ p. (p.0, shown p.1.now)) result (reader.by_void 0 [] (shown tokens.now) true) }
{
    let rest = a_sign(CSign::CloseParenthesis, tokens)?;
    Ok((Items::new(alloc), rest))
}

/// The types of the arguments of a declared function, up to the closing parenthesis: so many at most (C89, 3.5.4.3).
///
/// # Errors
///
/// The tokens from the first one on with which nothing goes on, or want of memory.
#[tactic(auto, unfolding(c_expression_reader::specs::Readings::shown, c_lexer::specs::SeenTokens::seen, c_readers::specs::TypeReader::argument_types, c_readers::specs::TypeReader::by_void))]
pub fn read_argument_types<'a>(
    alloc: Global,
    tokens: &'a [PlacedCToken],
    count: usize,
) -> Result<(Items<ArgumentType>, &'a [PlacedCToken]), Failure<'a>>
    ensures { Gives (λ p. (p.0, shown p.1.now)) result (reader.argument_types count (shown tokens.now)) }
{
    match tokens {
        [
            PlacedCToken {
                token: CToken::Word(text),
                ..
            },
            rest @ ..,
        ] if text.as_slice() == b"void".as_slice() => no_type(alloc, rest),
        _ => some_types(alloc, tokens, count),
    }
}
