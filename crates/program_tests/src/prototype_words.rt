//! Prototype files of translations: they are written, and each call of the shelf fails once. CSTR 149.

use crate::calls::{NamedFile, call, call_over, file_on, name_of, shelf_of};
use f2c_outside::memory_shelf::MemoryShelf;
use std::alloc::Global;
use std::process::Abort;
use std::test::Fail;

const ADD: NamedFile = (
    b"add.f",
    b"      SUBROUTINE ADD(N, S)\n      INTEGER N, S, I\n      DO 10 I = 1, N\n   10 S = S + I\n      END\n",
);

const ADD_PROTOTYPES: NamedFile = (b"add.P", b"extern int add_(integer *n, integer *s);\n");

const ADD_ONCE: NamedFile = (
    b"src/add.f",
    b"      SUBROUTINE ADD(N, S)\n      INTEGER N, S\n      S = S + N\n      END\n",
);

const TWICE: NamedFile = (
    b"twice.f",
    b"      INTEGER FUNCTION TWICE(K)\n      INTEGER K\n      TWICE = 2*K\n      END\n",
);

const TWICE_PROTOTYPES: NamedFile = (b"twice.P", b"extern integer twice_(integer *k);\n");

const LIBRARY: NamedFile = (
    b"library.P",
    b"extern VOID name_(char *ret_val, ftnlen ret_val_len);\n",
);

/// A file of a shelf has these bytes.
fn expect_file(
    rt: &impl Abort,
    alloc: Global,
    shelf: &MemoryShelf,
    file: NamedFile,
) -> Result<(), Fail> {
    assert!(rt; file_on(alloc, shelf, file.0)? == Some(file.1));
    Ok(())
}

/// Options and files of both kinds stand in any order, an option as often as one likes; the prototypes of a file in another folder go to the current one.
#[test]
fn words_stand_in_any_order(rt: HostRuntime) -> Result<(), Fail> {
    let alloc = rt.alloc();
    let files = [LIBRARY, ADD_ONCE, TWICE];
    let words = [
        "-w",
        "library.P",
        "src/add.f",
        "-A",
        "-onetrip",
        "-P",
        "-!bs",
        "-72",
        "twice.f",
        "-P",
        "-u",
    ];
    let (status, shelf) = call(alloc, &words, b"", &files, 0)?;
    assert!(rt; shelf.fault_text().is_empty() && shelf.output().is_empty());
    assert_eq!(rt; status, 0);
    expect_file(&rt, alloc, &shelf, ADD_PROTOTYPES)?;
    expect_file(&rt, alloc, &shelf, TWICE_PROTOTYPES)
}

/// The words of two translations: the second compares two files that are as they were.
const WORDS: [&str; 3] = ["-P", "add.f", "twice.f"];

const COMPARING: [&str; 3] = ["-Ps", "add.f", "twice.f"];

/// Each output, with the number of the call of the shelf that puts its text; the call before begins it.
const OUTPUTS: [(&[u8], u64); 4] = [
    (b"add.c", 10),
    (b"add.P", 13),
    (b"twice.c", 16),
    (b"twice.P", 19),
];

const CALLS_IN_ALL: u64 = 20;

/// What each output holds before.
const BEFORE: &[u8] = b"as it was\n";

/// A shelf with both files and all outputs.
fn shelf_before(alloc: Global) -> Result<MemoryShelf, Fail> {
    let mut shelf = shelf_of(alloc, &[ADD, TWICE])?;
    for (name, _) in OUTPUTS {
        shelf.set_file(name_of(alloc, name)?, BEFORE)?;
    }
    Ok(shelf)
}

/// The line on Fault where the call of this number failed: two files are read, each in four calls, and four written, each in three.
fn fault_line(failing: u64) -> &'static [u8] {
    match failing {
        1..=4 => b"f2c: add.f: shelf fault\n",
        5..=8 => b"f2c: twice.f: shelf fault\n",
        9..=11 => b"f2c: add.c: shelf fault\n",
        12..=14 => b"f2c: add.P: shelf fault\n",
        15..=17 => b"f2c: twice.c: shelf fault\n",
        18..=20 => b"f2c: twice.P: shelf fault\n",
        _ => b"",
    }
}

/// Where the call of this number failed: the outputs before the one that failed are whole, this one is unchanged where it was not begun and else holds a
/// front of its text, and those behind it are unchanged.
fn expect_outputs(
    rt: &impl Abort,
    alloc: Global,
    shelf: &MemoryShelf,
    whole: &MemoryShelf,
    failing: u64,
) -> Result<(), Fail> {
    for (name, putting) in OUTPUTS {
        let text = file_on(alloc, whole, name)?.unwrap_or(BEFORE);
        let now = file_on(alloc, shelf, name)?.unwrap_or(b"none");
        assert!(rt; text != BEFORE);
        if failing < putting {
            assert_eq!(rt; now, BEFORE);
        } else if failing == putting {
            assert!(rt; text.starts_with(now));
        } else {
            assert_eq!(rt; now, text);
        }
    }
    Ok(())
}

#[test]
fn each_shelf_call_fails_with_prototypes(rt: HostRuntime) -> Result<(), Fail> {
    let alloc = rt.alloc();
    let mut whole = shelf_before(alloc)?;
    assert_eq!(rt; call_over(alloc, &WORDS, &mut whole)?, 0);
    for failing in 1..=CALLS_IN_ALL + 1 {
        let mut shelf = shelf_before(alloc)?;
        shelf.fail_at(failing)?;
        let status = call_over(alloc, &WORDS, &mut shelf)?;
        assert_eq!(rt; status, if failing <= CALLS_IN_ALL { 3 } else { 0 });
        assert_eq!(rt; shelf.fault_text(), fault_line(failing));
        expect_outputs(&rt, alloc, &shelf, &whole, failing)?;
    }
    Ok(())
}

/// Old prototype files are read behind the FORTRAN files, and nothing is written where the shelf fails then.
#[test]
fn each_shelf_call_of_a_comparison_fails(rt: HostRuntime) -> Result<(), Fail> {
    let alloc = rt.alloc();
    let files = [ADD, TWICE, ADD_PROTOTYPES, TWICE_PROTOTYPES];
    for failing in 9..=16 {
        let (status, shelf) = call(alloc, &COMPARING, b"", &files, failing)?;
        let line: &[u8] = if failing <= 12 {
            b"f2c: add.P: shelf fault\n"
        } else {
            b"f2c: twice.P: shelf fault\n"
        };
        assert_eq!(rt; shelf.fault_text(), line);
        assert_eq!(rt; status, 3);
        assert!(rt; file_on(alloc, &shelf, b"add.c")?.is_none());
    }
    Ok(())
}
