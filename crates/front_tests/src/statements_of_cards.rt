//! Cards, the rows that they break, and the statements that they are.

use cards::{CardKind, Cards, card_kind, read_cards, read_included};
use f_tree::{Fail, Options};
use std::test::Fail as TestFail;

/// No option, but for `-72` where text past column 72 is refused.
fn options(refused: bool) -> Options {
    Options {
        undeclared: false,
        onetrip: false,
        long_cards: refused,
        checks: false,
    }
}

/// The card and the number of a refusal, or 0 and 0.
fn refusal(read: Result<Cards, Fail>) -> (u32, u8) {
    match read {
        Err(Fail::Refused(refusal)) => (refusal.card, refusal.kind.number()),
        Err(Fail::NoMemory) => (0, u8::MAX),
        Ok(_) => (0, 0),
    }
}

#[test]
fn refuses_by_the_first_row(rt: HostRuntime) -> Result<(), TestFail> {
    let rows: [(&[u8], u32, u8); 24] = [
        (b"      I=\x1f1\n      END\n", 1, 1),
        (b"      I='~'\nC\xc8\n      END\n", 0, 0),
        (b"1A    I=\x1f\n      END\n", 1, 1),
        (b"      END\r", 1, 1),
        (b"00000 I=1\n      END\n", 1, 2),
        (b"0 001 I=1\n      END\n", 0, 0),
        (b"1    1X\n      END\n", 1, 2),
        (b"123 X I=1\n      END\n", 1, 2),
        (b"     1X\n      END\n", 1, 4),
        (b"      I=\nC\n\n     11\n      END\n", 0, 0),
        (b"      END\n&\x1f\n", 2, 1),
        (b"      END\n&X\n", 2, 4),
        (
            b"      I=1                                                              23\n      END\n",
            1,
            5,
        ),
        (
            b"      I=1                                                              2 \t\n      END\n",
            0,
            0,
        ),
        (
            b"C      I=1                                                              23\n      END\n",
            0,
            0,
        ),
        (
            b"1     I=1                                                              23\n      END\n",
            1,
            5,
        ),
        (
            b"      I=1                                                              \x7f3\n      END\n",
            1,
            1,
        ),
        (b"      I=1\n", 1, 6),
        (b"      E N\n     1d\n", 0, 0),
        (b"", 0, 0),
        (b"C\n\n", 0, 0),
        (b"      ENDX\n", 1, 6),
        (b"      I=1\n1    12\n", 1, 6),
        (b"      I=1\n1    12\n      END\n", 2, 2),
    ];
    for (bytes, card, number) in rows {
        let read = read_cards(rt.alloc(), bytes, 0, &options(true));
        assert_eq!(rt; refusal(read), (card, number));
    }
    Ok(())
}

#[test]
fn reads_statements(rt: HostRuntime) -> Result<(), TestFail> {
    let bytes = b"* X\n  010 I=1\n\n&+ 2\r\n\tJ = 3\n";
    assert_eq!(rt;
        refusal(read_cards(rt.alloc(), bytes, 3, &options(false))),
        (5, 6)
    );
    let read = read_included(rt.alloc(), bytes, 3, &options(false));
    let Ok(cards) = read else {
        return Err(TestFail::from("no statements"));
    };
    assert_eq!(rt; cards.cards(), 5);
    assert!(rt; !cards.is_empty());
    assert_eq!(rt; cards.len(), 2);
    assert_eq!(rt; cards.label(0), Some(10));
    assert_eq!(rt; cards.label(1), None);
    assert_eq!(rt; cards.first_card(1), 5);
    assert_eq!(rt; cards.file(1), 3);
    assert_eq!(rt; cards.text(0).len(), 137);
    assert!(rt; cards.text(1).starts_with(b"J = 3   "));
    assert!(rt; card_kind(b"     1X\n") == CardKind::Continuation);
    Ok(())
}
