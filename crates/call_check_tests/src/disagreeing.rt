//! What is found of calls.

use crate::trees::{call, file, main_program, one, statement, subroutine};
use call_check::check_calls;
use call_shapes::{Argument, Finding, NamedShape, Reason, Shape, ShapeResult};
use f_tree::{Body, Expr, File};
use plain_data::Items;
use std::alloc::{AllocError, Global};
use std::test::Fail;

/// What is found of one call: its card, whether it calls such a name, and the reason.
fn only(findings: &[Finding], name: &[u8]) -> Option<(u32, bool, Reason)> {
    match findings {
        [finding] => Some((
            finding.card,
            finding.name.as_slice() == name,
            finding.reason,
        )),
        _ => None,
    }
}

/// `CALL S(..)`, END, and `SUBROUTINE S(I)`, END.
fn calling(alloc: Global, arguments: Items<Expr>) -> Result<File, AllocError> {
    let mut statements = one(alloc, statement(1, call(alloc, b"s", arguments)?))?;
    statements.push(statement(2, Body::End))?;
    let mut units = one(alloc, main_program(alloc, statements))?;
    units.push(subroutine(alloc, 3, b"s", statement(4, Body::End))?)?;
    Ok(file(units))
}

/// `CALL T(5)` and END.
fn calling_elsewhere(alloc: Global) -> Result<File, AllocError> {
    let arguments = one(alloc, Expr::Int(5))?;
    let mut statements = one(alloc, statement(1, call(alloc, b"t", arguments)?))?;
    statements.push(statement(2, Body::End))?;
    Ok(file(one(alloc, main_program(alloc, statements))?))
}

/// The line of a subroutine of one argument.
fn line(alloc: Global, name: &[u8], argument: Argument) -> Result<NamedShape, AllocError> {
    Ok(NamedShape {
        name: Items::from_slice(alloc, name)?,
        shape: Shape {
            result: ShapeResult::Subroutine,
            arguments: one(alloc, argument)?,
        },
    })
}

#[test]
fn tells_the_number_of_arguments(rt: HostRuntime) -> Result<(), Fail> {
    let alloc = rt.alloc();
    let mut arguments = one(alloc, Expr::Int(1))?;
    arguments.push(Expr::Int(2))?;
    let files = one(alloc, calling(alloc, arguments)?)?;
    let findings = check_calls(alloc, files.as_slice(), &[])?;
    let wanted = Reason::Count {
        actual: 2,
        dummy: 1,
    };
    assert!(rt; only(findings.as_slice(), b"s") == Some((1, true, wanted)));
    Ok(())
}

#[test]
fn compares_with_lines(rt: HostRuntime) -> Result<(), Fail> {
    let alloc = rt.alloc();
    let files = one(alloc, calling_elsewhere(alloc)?)?;
    let mut lines = one(alloc, line(alloc, b"t", Argument::Text)?)?;
    lines.push(line(alloc, b"t", Argument::Integer)?)?;
    let findings = check_calls(alloc, files.as_slice(), lines.as_slice())?;
    assert!(rt; only(findings.as_slice(), b"t") == Some((1, true, Reason::Argument(1))));
    Ok(())
}

#[test]
fn tells_nothing_of_calls_that_agree(rt: HostRuntime) -> Result<(), Fail> {
    let alloc = rt.alloc();
    let files = one(alloc, calling(alloc, one(alloc, Expr::Int(1))?)?)?;
    assert!(rt; check_calls(alloc, files.as_slice(), &[])?.is_empty());
    Ok(())
}
