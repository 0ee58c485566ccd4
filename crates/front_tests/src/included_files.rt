//! The trees of files and of those that they include.

use f_tree::{Fail, FileSet, Options, Refusal, Text, UnitKind};
use plain_data::Items;
use source_reader::{read_files, read_source};
use std::alloc::{AllocError, Global};
use std::test::Fail as TestFail;

const OPTIONS: Options = Options {
    undeclared: false,
    onetrip: false,
    long_cards: false,
    checks: false,
};

/// Two units that include a file.
const TWO_UNITS: &[u8] =
    b"      INCLUDE 'b.inc'\n      CALL S\n      END\n      SUBROUTINE S\n      INCLUDE 'b.inc'\n      K=4\n      END\n";

/// A unit that includes that file.
const ONE_UNIT: &[u8] = b"      SUBROUTINE T\n      INCLUDE 'b.inc'\n      END\n";

/// A file that includes another twice.
const TWICE: &[u8] = b"      INCLUDE 'b.inc'\n      INCLUDE 'b.inc'\n      END\n";

/// Texts.
fn texts(alloc: Global, list: &[&[u8]]) -> Result<Items<Text>, AllocError> {
    let mut texts = Items::new(alloc);
    for text in list {
        texts.push(Items::from_slice(alloc, text)?)?;
    }
    Ok(texts)
}

/// The trees of files, with the files that they include in the order in which they are first mentioned.
fn read(alloc: Global, files: &[&[u8]], included: &[&[u8]]) -> Result<FileSet, Fail> {
    let files = texts(alloc, files)?;
    let included = texts(alloc, included)?;
    let named = read_files(alloc, files.as_slice(), &OPTIONS)?;
    if named.names().len() != included.len() {
        return Err(Fail::NoMemory);
    }
    read_source(alloc, &named, included.as_slice(), &OPTIONS)
}

/// The file, the card and the number of a refusal; zeros where there is none.
fn row(read: Result<FileSet, Fail>) -> (usize, u32, u8) {
    match read {
        Err(Fail::Refused(Refusal { file, card, kind })) => (file, card, kind.number()),
        Err(Fail::NoMemory) => (0, 0, u8::MAX),
        Ok(_) => (0, 0, 0),
    }
}

/// The same line so many times.
fn lines(alloc: Global, count: u32, line: &[u8]) -> Result<Vec<u8>, AllocError> {
    let mut bytes = Vec::new(alloc);
    for _ in 0..count {
        bytes.extend_from_slice(line)?;
    }
    Ok(bytes)
}

#[test]
fn replaces_include_at_each_place(rt: HostRuntime) -> Result<(), TestFail> {
    let alloc = rt.alloc();
    let set = read(alloc, &[TWO_UNITS, ONE_UNIT], &[b"      COMMON /B/ K\n"])?;
    let mut units = Vec::new(alloc);
    for file in set.files.as_slice() {
        for unit in file.units.as_slice() {
            let main = matches!(unit.kind, UnitKind::Main);
            units.push((main, unit.statements.len()))?;
        }
    }
    let expected = [(true, 3), (false, 3), (false, 2)];
    assert_eq!(rt; units.as_slice(), expected.as_slice());
    Ok(())
}

#[test]
fn names_each_file_once(rt: HostRuntime) -> Result<(), TestFail> {
    let alloc = rt.alloc();
    let file: &[u8] =
        b"      INCLUDE 'b'\n      INCLUDE 'A'\n      INCLUDE 'b'\n   10 INCLUDE 'c'\n      END\n";
    let bad: &[u8] = b"     1X\n";
    let files = texts(alloc, &[file, bad, ONE_UNIT])?;
    let named = read_files(alloc, files.as_slice(), &OPTIONS)?;
    let [first, second] = named.names() else {
        return Err(TestFail::from("not two names"));
    };
    assert_eq!(rt; first.as_slice(), b"b".as_slice());
    assert_eq!(rt; second.as_slice(), b"A".as_slice());
    Ok(())
}

#[test]
fn counts_the_blocks_of_each_mention(rt: HostRuntime) -> Result<(), TestFail> {
    let alloc = rt.alloc();
    let allowed = lines(alloc, 32, b"      IF (L) THEN\n")?;
    assert_eq!(rt;
        row(read(alloc, &[TWICE], &[allowed.as_slice()])),
        (0, 0, 0)
    );
    let deep = lines(alloc, 33, b"      IF (L) THEN\n")?;
    assert_eq!(rt; row(read(alloc, &[TWICE], &[deep.as_slice()])), (1, 32, 17));
    Ok(())
}
