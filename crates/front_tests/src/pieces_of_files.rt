//! Files cut into their pieces, and the names that these ask for.

ghost use Rattle.std.specs.Prelude.{◌<◌, length};

use f_tree::Fail;
use fsplit::{Pieces, Wanted, cut};
use std::alloc::{AllocError, Global};
use std::test::Fail as TestFail;

/// The name that a piece asks for, or how it is found.
fn put_name(text: &mut Vec<u8>, pieces: &Pieces, i: usize) -> Result<(), AllocError>
    requires { i < length pieces.now }
{
    match pieces.wanted(i) {
        Wanted::Named => text.extend_from_slice(pieces.name(i)),
        Wanted::Main => text.extend_from_slice(b"MAIN"),
        Wanted::BlockData => text.extend_from_slice(b"DATA"),
        Wanted::Unknown => text.extend_from_slice(b"?"),
    }
}

/// A stroke for each line feed of a piece.
fn put_strokes(text: &mut Vec<u8>, piece: &[u8]) -> Result<(), AllocError> {
    for b in piece {
        if *b == b'\n' {
            text.push(b'|')?;
        }
    }
    Ok(())
}

/// For each piece the name that it asks for, or how it is found, and a stroke for each line feed.
fn listed(alloc: Global, pieces: &Pieces) -> Result<Vec<u8>, AllocError> {
    let mut text = Vec::new(alloc);
    for i in 0..pieces.len() {
        put_name(&mut text, pieces, i)?;
        put_strokes(&mut text, pieces.piece(i))?;
    }
    Ok(text)
}

/// What a text is cut into.
fn shown(alloc: Global, bytes: &[u8]) -> Result<Vec<u8>, TestFail> {
    match cut(alloc, bytes) {
        Ok(pieces) => Ok(listed(alloc, &pieces)?),
        Err(_) => Err(TestFail::from("not cut")),
    }
}

#[test]
fn cuts_behind_end_cards(rt: HostRuntime) -> Result<(), TestFail> {
    let rows: [(&[u8], &[u8]); 13] = [
        (
            b"      PROGRAM P\n      END\nC NOTE\n      SUBROUTINE S\n      END\n      I=1\n      END\n",
            b"p.f||s.f|||MAIN||",
        ),
        (b"", b""),
        (b"      REAL FUNCTION F(X)\n      END\n", b"f.f||"),
        (b"C NOTE\n\n", b"?||"),
        (b"      END\n\nC\n     1X\n", b"MAIN||||"),
        (b"      END\n     1IF\n      I=1", b"MAIN|MAIN|"),
        (b"      END = 1\n\te n d\r\n      I=1\n", b"MAIN||MAIN|"),
        (b"  100 END\n      I=1\n", b"MAIN|MAIN|"),
        (b"      EN\n     1D\n      END\n", b"MAIN|||"),
        (b"C     END\n&     END\n     1END\n      END", b"MAIN|||"),
        (b"      END\n      END\n      END\n", b"MAIN|MAIN|MAIN|"),
        (
            b"      END                                                               XYZ\nC",
            b"MAIN|",
        ),
        (
            b"      ENDX\n      I=\x01\n1    1X\n      END\n",
            b"MAIN||||",
        ),
    ];
    for (bytes, wanted) in rows {
        let found = shown(rt.alloc(), bytes)?;
        assert_eq!(rt; found.as_slice(), wanted);
    }
    Ok(())
}

#[test]
fn names_pieces_by_their_first_statement(rt: HostRuntime) -> Result<(), TestFail> {
    let rows: [(&[u8], &[u8]); 24] = [
        (b"      Sub Rou\n     1tine Ab_1(X)\n", b"ab_1.f||"),
        (b"&program main", b"?"),
        (b"\tprogram main", b"main.f"),
        (b"      CHARACTER*8 FUNCTION F(X)\n", b"f.f|"),
        (b"      CHARACTER*(FUNCTION(1)) FUNCTION G(X)\n", b"g.f|"),
        (b"      INTEGER FUNCTION FUNCTION(X)\n", b"function.f|"),
        (b"      DOUBLE PRECISION FUNCTION D()\n", b"d.f|"),
        (b"      FUNCTION F\n", b"f.f|"),
        (b"      REAL FUNCTION F\n", b"MAIN|"),
        (b"      FUNCTION (X)\n", b"?|"),
        (b"      FUNCTION(X) = 1\n", b"MAIN|"),
        (
            b"      BLOCK DATA\n      END\n      BLOCKDATA\n      END\n",
            b"DATA||DATA||",
        ),
        (b"      BLOCK DATA B\n", b"b.f|"),
        (b"      BLOCK DATA (B)\n", b"DATA|"),
        (b"      BLOCK DATA _B\n", b"?|"),
        (b"      PROGRAM 1X\n", b"?|"),
        (b"      PROGRAM\n", b"?|"),
        (b"      PROGRAM A2345678901234567890123456789012\n", b"?|"),
        (
            b"      PROGRAM A234567890123456789012345678901\n",
            b"a234567890123456789012345678901.f|",
        ),
        (b"      PROGRAM P.Q\n", b"p.f|"),
        (b"10    SUBROUTINE S'X'\n", b"s.f|"),
        (b"      HELLO\n", b"?|"),
        (b"10    FORMAT(3HEND)\n      END\n", b"MAIN||"),
        (b"      WRITE(*,*) 'PROGRAM P'\n", b"MAIN|"),
    ];
    for (bytes, wanted) in rows {
        let found = shown(rt.alloc(), bytes)?;
        assert_eq!(rt; found.as_slice(), wanted);
    }
    Ok(())
}
