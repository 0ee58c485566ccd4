//! Prototype files printed, read, compared and told from a C tree.

use c_tree::declaration::CParam;
use c_tree::file::{CFile, CFunction};
use c_tree::types::{ParameterType, ResultType};
use plain_data::Items;
use proto_file::{ProtoFail, Protos, changed, print_protos, protos_of, read_protos};
use std::alloc::{AllocError, Global};
use std::test::Fail as TestFail;

/// The one line of the worked prototype file.
const ADD: &[u8] = b"extern int add_(integer *n, integer *s);\n";
/// A line of each result and each type of a parameter.
const ALL: &[u8] =
    b"extern int s_(void);\nextern integer f_(logical *a, char *b, S_fp c__, I_fp d__, L_fp e, U_fp f, ftnlen b_len);\nextern logical g_under__(int n__);\nextern VOID t_(char *ret_val, ftnlen ret_val_len);\n";

fn read(alloc: Global, bytes: &[u8]) -> Result<Protos, TestFail> {
    match read_protos(alloc, bytes) {
        Ok(protos) => Ok(protos),
        Err(ProtoFail::NotPrototype { .. }) => Err(TestFail::from("not read")),
        Err(ProtoFail::NoMemory) => Err(TestFail::from("no memory")),
    }
}

#[test]
fn prints_what_is_read(rt: HostRuntime) -> Result<(), TestFail> {
    let alloc = rt.alloc();
    let texts: [(&[u8], usize); 3] = [(ADD, 1), (ALL, 4), (b"", 0)];
    for (text, count) in texts {
        let protos = read(alloc, text)?;
        assert!(rt; protos.len() == count);
        assert!(rt; protos.is_empty() == (count == 0));
        assert!(rt; print_protos(alloc, &protos)?.as_slice() == text);
    }
    let protos = read(alloc, ADD)?;
    if protos.len() == 1 {
        assert!(rt; protos.name(0) == b"add_".as_slice());
        assert!(rt; matches!(protos.result(0), ResultType::Int));
        assert!(rt; protos.params(0).len() == 2);
    }
    Ok(())
}

#[test]
fn refuses_at_the_first_line_of_another_form(rt: HostRuntime) -> Result<(), TestFail> {
    let alloc = rt.alloc();
    let rows: [(&[u8], usize); 18] = [
        (b"", 0),
        (b"int x;\n", 1),
        (b"\n", 1),
        (b"extern int a_(void);\n\nextern int b_(void);\n", 2),
        (b"extern int a_(void);\nextern int b_(void);", 2),
        (b"extern int a_(void);\nextern int a_(void);\n", 0),
        (b"extern int a_();\n", 1),
        (b"extern  int a_(void);\n", 1),
        (b"extern int a_(void) ;\n", 1),
        (b"extern int a_(void); \n", 1),
        (b"extern int a_(void);\r\n", 1),
        (b"extern int a_(integer * n);\n", 1),
        (b"extern int a_(integer *n,integer *s);\n", 1),
        (b"extern int a_(integer *n, integer *n);\n", 1),
        (b"extern int a_(integer *int);\n", 1),
        (b"extern int while(void);\n", 1),
        (b"extern char a_(void);\n", 1),
        (b"extern int a_(address *p);\n", 1),
    ];
    for (text, line) in rows {
        let refused = match read_protos(alloc, text) {
            Ok(_) => 0,
            Err(ProtoFail::NotPrototype { line }) => line,
            Err(ProtoFail::NoMemory) => return Err(TestFail::from("no memory")),
        };
        assert!(rt; refused == line);
    }
    Ok(())
}

#[test]
fn tells_lists_that_differ(rt: HostRuntime) -> Result<(), TestFail> {
    let alloc = rt.alloc();
    let old = read(alloc, ADD)?;
    let others: [(&[u8], bool); 6] = [
        (ADD, false),
        (b"", true),
        (b"extern int add_(integer *n, integer *r);\n", true),
        (b"extern int add_(integer *n, logical *s);\n", true),
        (b"extern integer add_(integer *n, integer *s);\n", true),
        (b"extern int add_(integer *n);\n", true),
    ];
    for (text, differs) in others {
        assert!(rt; changed(&old, &read(alloc, text)?) == differs);
    }
    Ok(())
}

/// A function with one parameter and without a statement.
fn function(alloc: Global, name: &[u8]) -> Result<CFunction, AllocError> {
    let mut params = Items::new(alloc);
    params.push(CParam {
        of: ParameterType::Integers,
        name: Items::from_slice(alloc, b"n")?,
    })?;
    Ok(CFunction {
        result: ResultType::Int,
        name: Items::from_slice(alloc, name)?,
        params,
        locals: Items::new(alloc),
        body: Items::new(alloc),
    })
}

#[test]
fn leaves_out_what_no_other_file_calls(rt: HostRuntime) -> Result<(), TestFail> {
    let alloc = rt.alloc();
    let names: [&[u8]; 5] = [b"MAIN__", b"add_", b"sub_0_", b"sub_", b"sub_0__"];
    let mut functions = Items::new(alloc);
    for name in names {
        functions.push(function(alloc, name)?)?;
    }
    let file = CFile {
        objects: Items::new(alloc),
        constants: Items::new(alloc),
        functions,
    };
    let printed = print_protos(alloc, &protos_of(alloc, &file)?)?;
    let wanted =
        b"extern int add_(integer *n);\nextern int sub_(integer *n);\nextern int sub_0__(integer *n);\n";
    assert!(rt; printed.as_slice() == wanted.as_slice());
    Ok(())
}
