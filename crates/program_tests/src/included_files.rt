//! What sources give that include files. (The rows of the table of refusals, one by one, and files that are not there, are cases of `command_rows`.)

use crate::calls::{NamedFile, call};
use std::alloc::Global;
use std::process::Abort;
use std::test::Fail;

/// The source gives this line on Fault with this status, and nothing on Output; or its translation, where the line is empty.
fn expect(
    rt: &impl Abort,
    alloc: Global,
    input: &[u8],
    files: &[NamedFile],
    status: u8,
    line: &[u8],
) -> Result<(), Fail> {
    let (ended, shelf) = call(alloc, &[], input, files, 0)?;
    assert_eq!(rt; shelf.fault_text(), line);
    assert_eq!(rt; ended, status);
    assert_eq!(rt; shelf.output().is_empty(), status != 0);
    Ok(())
}

#[test]
fn included_statements_stand_in_the_place_of_include(rt: HostRuntime) -> Result<(), Fail> {
    let alloc = rt.alloc();
    let (_, joined) = call(
        alloc,
        &[],
        b"      I=1\n      PRINT *,I\n      END\n",
        &[],
        0,
    )?;
    let file: NamedFile = (b"b.inc", b"      I=1\n      PRINT *,I\n");
    let (status, shelf) = call(
        alloc,
        &[],
        b"      INCLUDE 'b.inc'\n      END\n",
        &[file],
        0,
    )?;
    assert_eq!(rt; status, 0);
    assert_eq!(rt; shelf.output(), joined.output());
    Ok(())
}

/// So many comments.
fn comments(alloc: Global, count: usize) -> Result<Vec<u8>, Fail> {
    let mut bytes = Vec::new(alloc);
    for _ in 0..count {
        bytes.extend_from_slice(b"C\n")?;
    }
    Ok(bytes)
}

#[test]
fn included_cards_count(rt: HostRuntime) -> Result<(), Fail> {
    let alloc = rt.alloc();
    let input = b"      INCLUDE 'b.inc'\n      I=1\n      INCLUDE 'b.inc'\n      END\n";
    let most = comments(alloc, 32_766)?;
    expect(&rt, alloc, input, &[(b"b.inc", &most)], 0, b"")?;
    let more = comments(alloc, 32_767)?;
    let line = b"f2c: <stdin>:3: F07 file too long\n";
    expect(&rt, alloc, input, &[(b"b.inc", &more)], 1, line)?;
    let long = comments(alloc, 65_537)?;
    let line = b"f2c: b.inc:65537: F07 file too long\n";
    expect(&rt, alloc, input, &[(b"b.inc", &long)], 1, line)
}

#[test]
fn each_shelf_call_fails_while_files_are_read(rt: HostRuntime) -> Result<(), Fail> {
    let alloc = rt.alloc();
    let input = b"      INCLUDE 'b.inc'\n      END\n";
    let file: NamedFile = (b"b.inc", b"      I=1\n");
    for failing in 1..=8 {
        let (status, shelf) = call(alloc, &[], input, &[file], failing)?;
        let line: &[u8] = if failing <= 4 {
            b"f2c: <stdin>: shelf fault\n"
        } else {
            b"f2c: b.inc: shelf fault\n"
        };
        assert_eq!(rt; shelf.fault_text(), line);
        assert_eq!(rt; status, 3);
        assert!(rt; shelf.output().is_empty());
    }
    Ok(())
}
