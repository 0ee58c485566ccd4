//! Where tokens stand in the text of a statement.

use fortran_lexemes::StmtKind;
use std::test::Fail as TestFail;
use stmt_lex::{Place, token_places};

/// Whether the tokens of a text stand at these places: from which byte, and how many bytes.
fn stand_at(found: &[Place], wanted: &[(usize, usize)]) -> bool {
    found.len() == wanted.len()
        && found.iter().zip(wanted).all(|(place, (from, len))| place.from == *from
            && place.len == *len)
}

#[test]
fn tells_where_tokens_stand(rt: HostRuntime) -> Result<(), TestFail> {
    let rows: [(StmtKind, &[u8], &[(usize, usize)]); 4] = [
        (
            StmtKind::Do,
            b"DO 10 I = 1, 5",
            &[(0, 2), (3, 2), (6, 1), (8, 1), (10, 1), (11, 1), (13, 1)],
        ),
        (
            StmtKind::DoWhile,
            b"DO 10, WHILE (L)",
            &[(0, 2), (3, 2), (5, 1), (13, 1), (14, 1), (15, 1)],
        ),
        (
            StmtKind::Assignment,
            b"C='A B' 'C'",
            &[(0, 1), (1, 1), (2, 5), (8, 3)],
        ),
        (
            StmtKind::Assignment,
            b"I J = 1 2",
            &[(0, 3), (4, 1), (6, 3)],
        ),
    ];
    for (kind, text, wanted) in rows {
        let places = token_places(rt.alloc(), kind, false, text)?;
        assert!(rt; stand_at(places.as_slice(), wanted));
    }
    Ok(())
}
