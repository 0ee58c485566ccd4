//! Tokens of C texts and their lines.

use c_lexer::CSign::{Assign, Increment, LessOrEqual, Or, Plus, Question, Semicolon, Slash, Star};
use c_lexer::{CSign, CToken, PlacedCToken, last_line, tokens};
use std::alloc::{AllocError, Global};
use std::test::Fail as TestFail;

/// A token that a test wants.
#[derive(Clone, Copy)]
enum Wanted<'a> {
    Including,
    Word(&'a [u8]),
    Digits(u32),
    Quoted(&'a [u8]),
    Sign(CSign),
    Bad,
}

use Wanted::{Bad, Digits, Including, Quoted, Sign, Word};

fn is_wanted(token: &CToken, wanted: Wanted) -> bool {
    match (token, wanted) {
        (CToken::Including, Including) | (CToken::Bad, Bad) => true,
        (CToken::Word(bytes), Word(expected)) => bytes.as_slice() == expected,
        (CToken::Quoted(bytes), Quoted(expected)) => bytes.as_slice() == expected,
        (CToken::Digits(value), Digits(expected)) => *value == expected,
        (CToken::Sign(sign), Sign(expected)) => *sign == expected,
        _ => false,
    }
}

fn are_wanted(found: &[PlacedCToken], wanted: &[(usize, Wanted)]) -> bool {
    found.len() == wanted.len()
        && found.iter().zip(wanted).all(|(placed, (line, token))| placed.line == *line
            && is_wanted(&placed.token, *token))
}

#[test]
fn reads_words_numbers_and_signs(rt: HostRuntime) -> Result<(), TestFail> {
    let rows: [(&[u8], &[(usize, Wanted)]); 4] = [
        (
            b"a+++b\n<== 0",
            &[
                (1, Word(b"a")),
                (1, Sign(Increment)),
                (1, Sign(Plus)),
                (1, Word(b"b")),
                (2, Sign(LessOrEqual)),
                (2, Sign(Assign)),
                (2, Digits(0)),
            ],
        ),
        (
            b"2147483647;2147483648 0777\r\n1e5_",
            &[
                (1, Digits(2_147_483_647)),
                (1, Sign(Semicolon)),
                (1, Bad),
                (1, Bad),
                (2, Bad),
            ],
        ),
        (
            b"??\x0b|||\x0c|=/",
            &[
                (1, Sign(Question)),
                (1, Sign(Question)),
                (1, Sign(Or)),
                (1, Bad),
                (1, Bad),
                (1, Sign(Assign)),
                (1, Sign(Slash)),
            ],
        ),
        (b"\xe9_Z9/**/@", &[(1, Bad), (1, Word(b"_Z9")), (1, Bad)]),
    ];
    for (text, wanted) in rows {
        let found = tokens(rt.alloc(), text)?;
        assert!(rt; are_wanted(found.as_slice(), wanted));
    }
    Ok(())
}

#[test]
fn reads_strings(rt: HostRuntime) -> Result<(), TestFail> {
    let rows: [(&[u8], &[(usize, Wanted)]); 5] = [
        (
            b"\"a\\377\\0001\\\"\\\\?\"x",
            &[(1, Quoted(b"a\xff\x001\"\\?")), (1, Word(b"x"))],
        ),
        (
            b"\"\\12\"\n\"\\400",
            &[
                (1, Bad),
                (1, Bad),
                (1, Digits(12)),
                (1, Bad),
                (2, Bad),
                (2, Bad),
                (2, Digits(400)),
            ],
        ),
        (
            b"\"ab\n\"\"",
            &[(1, Bad), (1, Word(b"ab")), (2, Quoted(b""))],
        ),
        (
            b"\"\\\"\\\"",
            &[(1, Bad), (1, Bad), (1, Bad), (1, Bad), (1, Bad)],
        ),
        (b"\"\xe9\"", &[(1, Bad), (1, Bad), (1, Bad)]),
    ];
    for (text, wanted) in rows {
        let found = tokens(rt.alloc(), text)?;
        assert!(rt; are_wanted(found.as_slice(), wanted));
    }
    Ok(())
}

#[test]
fn reads_comments_and_the_include_line(rt: HostRuntime) -> Result<(), TestFail> {
    let rows: [(&[u8], &[(usize, Wanted)]); 5] = [
        (
            b"/* a\n*/\r\n  #include \"f2c.h\" \t\r\nx",
            &[(3, Including), (4, Word(b"x"))],
        ),
        (b"#include \"f2c.h\"", &[(1, Including)]),
        (
            b"/*\n#include \"f2c.h\"\n*/ #include \"f2c.h\"\n",
            &[(3, Bad), (3, Word(b"include")), (3, Quoted(b"f2c.h"))],
        ),
        (
            b"\n#include \"f2c.h\" x",
            &[
                (2, Bad),
                (2, Word(b"include")),
                (2, Quoted(b"f2c.h")),
                (2, Word(b"x")),
            ],
        ),
        (
            b"/*/ **/ b/*/\n*",
            &[
                (1, Word(b"b")),
                (1, Bad),
                (1, Sign(Star)),
                (1, Sign(Slash)),
                (2, Sign(Star)),
            ],
        ),
    ];
    for (text, wanted) in rows {
        let found = tokens(rt.alloc(), text)?;
        assert!(rt; are_wanted(found.as_slice(), wanted));
    }
    Ok(())
}

#[test]
fn tells_the_last_line(rt: HostRuntime) -> Result<(), TestFail> {
    let rows: [(&[u8], usize); 5] = [
        (b"", 1),
        (b"a\n", 1),
        (b"a\nb", 2),
        (b"\n\n", 2),
        (b"a\r\nb\n\nc", 4),
    ];
    for (text, line) in rows {
        assert_eq!(rt; last_line(text), line);
    }
    Ok(())
}

/// How many tokens a text has that is written so often.
fn repeated(alloc: Global, text: &[u8], count: usize) -> Result<usize, AllocError> {
    let mut bytes = Vec::new(alloc);
    for _ in 0..count {
        bytes.extend_from_slice(text)?;
    }
    Ok(tokens(alloc, bytes.as_slice())?.len())
}

#[test]
fn does_not_look_again_at_what_is_not_ended(rt: HostRuntime) -> Result<(), TestFail> {
    assert_eq!(rt; repeated(rt.alloc(), b"/* ", 500)?, 1000);
    assert_eq!(rt; repeated(rt.alloc(), b"\"\\", 501)?, 1002);
    Ok(())
}
