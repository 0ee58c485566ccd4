//! Texts of C files that are read, that are refused, and that nest too deep.

use c_file_reader::{ReadFail, read_c};
use c_tree::file::CFile;
use std::alloc::Global;
use std::test::Fail as TestFail;

/// An array, a constant, and two functions, of which the second calls the first.
const TWO_FUNCTIONS: &[u8] = b"#include \"f2c.h\"

integer a_[2] = { 1, -2 };

static integer c__1 = 5;

int f_(integer *n)
{
    static integer k = 3;
    integer i__;

    for (i__ = 1; i__ <= *n; ++i__) {
        k = k + a_[i__ - 1] * (c__1 + 2);
        if (k > 7) {
            goto L10;
        }
    }
L10:
    return 0;
}

int MAIN__(void)
{
    integer n;

    n = 4;
    f_(&n);
    return 0;
}
";

/// Whether a file is that of the two functions, by its names and by how long its lists are.
fn is_of_two_functions(file: &CFile) -> bool {
    match (
        file.objects.as_slice(),
        file.constants.as_slice(),
        file.functions.as_slice(),
    ) {
        ([_], [constant], [first, second]) => {
            constant.name.as_slice() == b"c__1".as_slice()
                && constant.value == 5
                && first.name.as_slice() == b"f_".as_slice()
                && first.params.len() == 1
                && first.locals.len() == 2
                && first.body.len() == 2
                && second.name.as_slice() == b"MAIN__".as_slice()
                && second.params.len() == 0
                && second.locals.len() == 1
                && second.body.len() == 3
        }
        _ => false,
    }
}

/// How the reading of a text ends.
#[derive(Clone, Copy, Debug, PartialEq, Eq)]
enum Ended {
    Read,
    RefusedAt(usize),
    NoMemory,
}

fn reading(alloc: Global, text: &[u8]) -> Ended {
    match read_c(alloc, text) {
        Ok(_) => Ended::Read,
        Err(ReadFail::NotC { line }) => Ended::RefusedAt(line),
        Err(ReadFail::NoMemory) => Ended::NoMemory,
    }
}

/// The main program with these declarations and statements.
fn main_program(alloc: Global, before: &[u8], inside: &[u8]) -> Result<Vec<u8>, TestFail> {
    let mut text = Vec::new(alloc);
    text.extend_from_slice(b"#include \"f2c.h\"\n")?;
    text.extend_from_slice(before)?;
    text.extend_from_slice(b"int MAIN__(void)\n{\ninteger i__1;\ninteger i__2;\n")?;
    text.extend_from_slice(inside)?;
    text.extend_from_slice(b"return 0;\n}\n")?;
    Ok(text)
}

/// A function of one statement: a front so often, a middle, and an end as often.
fn deep_text(
    alloc: Global,
    front: &[u8],
    middle: &[u8],
    end: &[u8],
    count: usize,
) -> Result<Vec<u8>, TestFail> {
    let mut text = Vec::new(alloc);
    text.extend_from_slice(b"#include \"f2c.h\"\nint f_(void)\n{\ninteger i;\ni = 1;\n")?;
    for _ in 0..count {
        text.extend_from_slice(front)?;
    }
    text.extend_from_slice(middle)?;
    for _ in 0..count {
        text.extend_from_slice(end)?;
    }
    text.extend_from_slice(b"}\n")?;
    Ok(text)
}

#[test]
fn reads_functions_in_their_order(rt: HostRuntime) -> Result<(), TestFail> {
    match read_c(rt.alloc(), TWO_FUNCTIONS) {
        Ok(file) => assert!(rt; is_of_two_functions(&file)),
        Err(_) => assert!(rt; false),
    }
    Ok(())
}

#[test]
fn refuses_texts_at_their_lines(rt: HostRuntime) -> Result<(), TestFail> {
    let rows: [(&[u8], usize); 5] = [
        (b"", 1),
        (b"#include \"f2c.h\"\n\nint f_(void)\n{\n  goto L1;\n}\n", 6),
        (b"#include \"f2c.h\"\nint f_(void)\n{\n", 3),
        (b"#include \"f2c.h\"\nint f_(void)\n{\n  g_();\n}\n", 4),
        (
            b"#include \"f2c.h\"\nint f_(void)\n{\n}\nstatic integer c__1 = 1;\n",
            5,
        ),
    ];
    for (text, line) in rows {
        assert_eq!(rt; reading(rt.alloc(), text), Ended::RefusedAt(line));
    }
    Ok(())
}

#[test]
fn takes_deep_texts_for_want_of_memory(rt: HostRuntime) -> Result<(), TestFail> {
    let alloc = rt.alloc();
    let nested = deep_text(alloc, b"{", b";", b"}", 100)?;
    assert_eq!(rt; reading(alloc, nested.as_slice()), Ended::Read);
    let deep = deep_text(alloc, b"{", b";", b"}", 100_000)?;
    assert_eq!(rt; reading(alloc, deep.as_slice()), Ended::NoMemory);
    let deep = deep_text(alloc, b"i = (", b"", b"", 1)?;
    assert_eq!(rt; reading(alloc, deep.as_slice()), Ended::RefusedAt(6));
    let long = deep_text(alloc, b"i = 1;\n", b"", b"", 10_000)?;
    assert_eq!(rt; reading(alloc, long.as_slice()), Ended::Read);
    Ok(())
}

#[test]
fn takes_deep_expressions_for_want_of_memory(rt: HostRuntime) -> Result<(), TestFail> {
    let alloc = rt.alloc();
    let open = deep_text(alloc, b"(", b"", b"", 100_000)?;
    assert_eq!(rt; reading(alloc, open.as_slice()), Ended::NoMemory);
    let mut inner = Vec::new(alloc);
    inner.extend_from_slice(b"i = ")?;
    for _ in 0..100_000 {
        inner.extend_from_slice(b"(")?;
    }
    let nested = deep_text(alloc, b"{", inner.as_slice(), b"}", 250)?;
    assert_eq!(rt; reading(alloc, nested.as_slice()), Ended::NoMemory);
    Ok(())
}

#[test]
fn reads_texts_whose_runs_come_to_faults(rt: HostRuntime) -> Result<(), TestFail> {
    let rows: [(&[u8], &[u8]); 7] = [
        (b"", b"i__1 = 2147483647 + 1;\n"),
        (b"", b"i__1 = i__2;\n"),
        (b"", b"static integer a[2];\na[2] = 1;\n"),
        (b"", b"i__1 = &i__2;\n"),
        (
            b"int f_(void)\n{\nreturn 0;\n}\n",
            b"extern int f_(int);\nf_(1);\n",
        ),
        (b"", b"extern int MAIN__(void);\nMAIN__();\n"),
        (b"", b"extern integer e_wsle(void);\ne_wsle();\n"),
    ];
    for (before, inside) in rows {
        let text = main_program(rt.alloc(), before, inside)?;
        assert_eq!(rt; reading(rt.alloc(), text.as_slice()), Ended::Read);
    }
    let lost = main_program(rt.alloc(), b"", b"goto L10;\n")?;
    assert_eq!(rt; reading(rt.alloc(), lost.as_slice()), Ended::RefusedAt(8));
    Ok(())
}

#[test]
fn reads_long_and_deep_expressions(rt: HostRuntime) -> Result<(), TestFail> {
    let alloc = rt.alloc();
    let signs = deep_text(alloc, b"- ", b"0;", b"", 0)?;
    assert_eq!(rt; reading(alloc, signs.as_slice()), Ended::RefusedAt(6));
    let mut signs = Vec::new(alloc);
    signs.extend_from_slice(b"return ")?;
    for _ in 0..1_000 {
        signs.extend_from_slice(b"- ")?;
    }
    signs.extend_from_slice(b"0;\n")?;
    let text = main_program(alloc, b"", signs.as_slice())?;
    assert_eq!(rt; reading(alloc, text.as_slice()), Ended::Read);
    let mut sum = Vec::new(alloc);
    sum.extend_from_slice(b"i__1 = 1")?;
    for _ in 0..700 {
        sum.extend_from_slice(b" + 1")?;
    }
    sum.extend_from_slice(b";\n")?;
    let text = main_program(alloc, b"", sum.as_slice())?;
    assert_eq!(rt; reading(alloc, text.as_slice()), Ended::Read);
    Ok(())
}
