//! What no clause says: the texts of worked rows, and that calls succeed with ample memory.

use crate::calls::call;
use std::alloc::Global;
use std::process::Abort;
use std::test::Fail;

const CARDS: &[u8] = b"      I=2\n      PRINT *,I+3\n      END\n";

const TEXT: &[u8] = b"/* translated by f2c */

#include \"f2c.h\"

/* Table of constant values */

static integer c__1 = 1;
static integer c__3 = 3;

/* Main program */ int MAIN__(void)
{
    /* System generated locals */
    integer i__1;

    /* Builtin functions */
    extern integer s_wsle(cilist *);
    extern integer do_lio(integer *, integer *, char *, ftnlen);
    extern integer e_wsle(void);

    /* Local variables */
    static integer i__;

    /* Fortran I/O blocks */
    static cilist io___1 = { 0, 6, 0, 0, 0 };

    i__ = 2;
    s_wsle(&io___1);
    i__1 = i__ + 3;
    do_lio(&c__3, &c__1, (char *)&i__1, (ftnlen)sizeof(integer));
    e_wsle();
    return 0;
} /* MAIN__ */
";

const C_WORD_CARDS: &[u8] =
    b"      if = 1\n      Int = if\n      print *, int                                                      past column 72\n      e nd";

const C_WORD_TEXT: &[u8] = b"/* translated by f2c */

#include \"f2c.h\"

/* Table of constant values */

static integer c__1 = 1;
static integer c__3 = 3;

/* Main program */ int MAIN__(void)
{
    /* Builtin functions */
    extern integer s_wsle(cilist *);
    extern integer do_lio(integer *, integer *, char *, ftnlen);
    extern integer e_wsle(void);

    /* Local variables */
    static integer if__;
    static integer int__;

    /* Fortran I/O blocks */
    static cilist io___1 = { 0, 6, 0, 0, 0 };

    if__ = 1;
    int__ = if__;
    s_wsle(&io___1);
    do_lio(&c__3, &c__1, (char *)&int__, (ftnlen)sizeof(integer));
    e_wsle();
    return 0;
} /* MAIN__ */
";

const NOT_BUILT_AT_1: &[u8] = b"f2c: <stdin>:1: F99 not built yet\n";

/// The input is translated to this text.
fn expect_text(rt: &impl Abort, alloc: Global, input: &[u8], text: &[u8]) -> Result<(), Fail> {
    let (status, shelf) = call(alloc, &[], input, &[], 0)?;
    assert!(rt; shelf.fault_text().is_empty());
    assert_eq!(rt; status, 0);
    assert_eq!(rt; shelf.output(), text);
    Ok(())
}

/// The input is refused by this line.
fn expect_refusal(rt: &impl Abort, alloc: Global, input: &[u8], line: &[u8]) -> Result<(), Fail> {
    let (status, shelf) = call(alloc, &[], input, &[], 0)?;
    assert_eq!(rt; shelf.fault_text(), line);
    assert_eq!(rt; status, 1);
    assert!(rt; shelf.output().is_empty());
    Ok(())
}

#[test]
fn worked_rows(rt: HostRuntime) -> Result<(), Fail> {
    let alloc = rt.alloc();
    expect_text(&rt, alloc, CARDS, TEXT)?;
    expect_text(&rt, alloc, C_WORD_CARDS, C_WORD_TEXT)?;
    expect_refusal(&rt, alloc, b"", NOT_BUILT_AT_1)?;
    let (status, shelf) = call(alloc, &["-72", "-72"], C_WORD_CARDS, &[], 0)?;
    assert_eq!(rt; status, 1);
    let line: &[u8] = b"f2c: <stdin>:3: F05 text past column 72\n";
    assert_eq!(rt; shelf.fault_text(), line);
    Ok(())
}

/// So many cards `I=1`, and one with END that is filled with blanks up to this number of bytes.
fn long_input(alloc: Global, cards: usize, bytes: usize) -> Result<Vec<u8>, Fail> {
    let mut input = Vec::new(alloc);
    for _ in 0..cards {
        input.extend_from_slice(b"      I=1\n")?;
    }
    input.extend_from_slice(b"      END")?;
    for _ in input.len()..bytes {
        input.push(b' ')?;
    }
    Ok(input)
}

#[test]
fn input_at_its_limits(rt: HostRuntime) -> Result<(), Fail> {
    let alloc = rt.alloc();
    for (cards, bytes) in [(65_535, 0), (1, 16_777_216)] {
        let input = long_input(alloc, cards, bytes)?;
        let (status, shelf) = call(alloc, &[], &input, &[], 0)?;
        assert_eq!(rt; status, 0);
        assert!(rt; !shelf.output().is_empty());
    }
    let too_many_cards = long_input(alloc, 65_536, 0)?;
    expect_refusal(
        &rt,
        alloc,
        &too_many_cards,
        b"f2c: <stdin>:65537: F07 file too long\n",
    )?;
    let too_many_bytes = long_input(alloc, 1, 16_777_217)?;
    expect_refusal(
        &rt,
        alloc,
        &too_many_bytes,
        b"f2c: <stdin>:2: F07 file too long\n",
    )
}

/// The call of the shelf of this number fails: status 3, this line, and a front of the text on Output.
fn expect_fault(rt: &impl Abort, alloc: Global, failing: u64, line: &[u8]) -> Result<(), Fail> {
    let (status, shelf) = call(alloc, &[], CARDS, &[], failing)?;
    assert_eq!(rt; shelf.fault_text(), line);
    assert_eq!(rt; status, 3);
    assert!(rt; TEXT.starts_with(shelf.output()));
    Ok(())
}

/// A translation calls the shelf so often to read a short Input to its end.
const CALLS_OF_READING: u64 = 4;

/// And so often with the calls that write Output in one piece.
const CALLS_IN_ALL: u64 = 7;

#[test]
fn each_shelf_call_fails(rt: HostRuntime) -> Result<(), Fail> {
    let alloc = rt.alloc();
    for failing in 1..=CALLS_OF_READING {
        expect_fault(&rt, alloc, failing, b"f2c: <stdin>: shelf fault\n")?;
    }
    for failing in CALLS_OF_READING + 1..=CALLS_IN_ALL {
        expect_fault(&rt, alloc, failing, b"f2c: <stdout>: shelf fault\n")?;
    }
    let (status, shelf) = call(alloc, &[], CARDS, &[], CALLS_IN_ALL + 1)?;
    assert_eq!(rt; status, 0);
    assert_eq!(rt; shelf.output(), TEXT);
    Ok(())
}

#[test]
fn a_message_that_fails_keeps_its_status(rt: HostRuntime) -> Result<(), Fail> {
    // Three calls read an empty Input, and the fourth begins the message.
    for failing in 4..20 {
        let (status, shelf) = call(rt.alloc(), &[], b"", &[], failing)?;
        assert_eq!(rt; status, 1);
        assert!(rt; NOT_BUILT_AT_1.starts_with(shelf.fault_text()));
    }
    Ok(())
}
