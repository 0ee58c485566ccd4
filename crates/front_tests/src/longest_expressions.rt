//! The longest and the deepest expressions that a statement has room for, which the stack has to hold.

use expression_parse::{Failure, parse_expression, parse_place};
use f_tree::{BinaryOp, Expr};
use fortran_lexemes::Sign;
use fortran_text::Character;
use std::alloc::{AllocError, Global};
use std::test::Fail as TestFail;
use stmt_lex::{Span, Token};

/// The text of all tokens here.
const TEXT: &[Character] = &[Character {
    code: b'a',
    quoted: false,
}];
/// Its only name.
const NAME: Token = Token::Name(Span { from: 0, len: 1 });

/// Whether an expression or a place is read, or is none.
fn is_read(read: Result<Expr, Failure>) -> Result<bool, Failure> {
    match read {
        Ok(_) => Ok(true),
        Err(Failure::Syntax) => Ok(false),
        Err(failure) => Err(failure),
    }
}

/// A name and so many times two tokens.
fn pairs(alloc: Global, first: Token, second: Token, count: u16) -> Result<Vec<Token>, AllocError> {
    let mut tokens = Vec::new(alloc);
    tokens.push(NAME)?;
    for _ in 0..count {
        tokens.push(first)?;
        tokens.push(second)?;
    }
    Ok(tokens)
}

/// A name in so many parentheses, with another token before each if one is given.
fn nested(alloc: Global, before: Option<Token>, count: u16) -> Result<Vec<Token>, AllocError> {
    let mut tokens = Vec::new(alloc);
    for _ in 0..count {
        if let Some(before) = before {
            tokens.push(before)?;
        }
        tokens.push(Token::Mark(Sign::Open))?;
    }
    tokens.push(NAME)?;
    for _ in 0..count {
        tokens.push(Token::Mark(Sign::Close))?;
    }
    Ok(tokens)
}

/// An element with so many subscripts.
fn listed(alloc: Global, count: u16) -> Result<Vec<Token>, AllocError> {
    let mut tokens = Vec::new(alloc);
    tokens.push(NAME)?;
    tokens.push(Token::Mark(Sign::Open))?;
    for _ in 0..count {
        tokens.push(NAME)?;
        tokens.push(Token::Mark(Sign::Comma))?;
    }
    tokens.push(NAME)?;
    tokens.push(Token::Mark(Sign::Close))?;
    Ok(tokens)
}

#[test]
fn reads_the_longest_chains(rt: HostRuntime) -> Result<(), TestFail> {
    let alloc = rt.alloc();
    let ops = [
        BinaryOp::Power,
        BinaryOp::Times,
        BinaryOp::Plus,
        BinaryOp::Concatenate,
        BinaryOp::Less,
        BinaryOp::And,
        BinaryOp::Equivalent,
    ];
    for op in ops {
        let tokens = pairs(alloc, Token::Infix(op), NAME, 707)?;
        assert_eq!(rt; is_read(parse_expression(alloc, TEXT, &tokens)), Ok(true));
    }
    let tokens = pairs(alloc, NAME, Token::Infix(BinaryOp::Plus), 707)?;
    assert_eq!(rt; is_read(parse_expression(alloc, TEXT, &tokens)), Ok(false));
    Ok(())
}

#[test]
fn reads_the_deepest_parentheses(rt: HostRuntime) -> Result<(), TestFail> {
    let alloc = rt.alloc();
    let tokens = nested(alloc, None, 707)?;
    assert_eq!(rt; is_read(parse_expression(alloc, TEXT, &tokens)), Ok(true));
    assert_eq!(rt; is_read(parse_place(alloc, TEXT, &tokens)), Ok(false));
    let tokens = nested(alloc, Some(NAME), 471)?;
    assert_eq!(rt; is_read(parse_expression(alloc, TEXT, &tokens)), Ok(true));
    assert_eq!(rt; is_read(parse_place(alloc, TEXT, &tokens)), Ok(true));
    let tokens = nested(alloc, Some(Token::Negation), 471)?;
    assert_eq!(rt; is_read(parse_expression(alloc, TEXT, &tokens)), Ok(true));
    Ok(())
}

#[test]
fn reads_the_longest_lists(rt: HostRuntime) -> Result<(), TestFail> {
    let alloc = rt.alloc();
    let tokens = listed(alloc, 705)?;
    assert_eq!(rt; is_read(parse_expression(alloc, TEXT, &tokens)), Ok(true));
    assert_eq!(rt; is_read(parse_place(alloc, TEXT, &tokens)), Ok(true));
    Ok(())
}
