//! Ordinary, edge and refused values of each form (C89, 3.3).

use crate::sample::{
    LIST, NUMBERS, POINTER, UNSET, between, cast, choice, constant, element, field, magnitude,
    most, numbers, pointer, prefixed, sample, variable,
};
use c_tree::expression::{BinaryOp, Extreme, UnaryOp};
use c_tree::outcome::{CFault, CValue};
use c_tree::types::{CastType, ListType};
use linked_terms::{FieldName, LinkedPlace, LinkedTerm, ListField, field_name};
use run_bytes::{AccessType, FieldType, PointedType, RunBytes};
use std::alloc::AllocError;
use std::process::Abort;
use std::test::Fail;
use term_values::{number_of, place_named, test_of, value_of, values_of};

/// The value of a number.
fn number(number: i32) -> Result<CValue, CFault> {
    Ok(CValue::Number(number))
}

/// Compares the value of an expression with the one that is wanted.
fn expect(
    rt: &impl Abort,
    run: &RunBytes,
    what: &str,
    term: Result<LinkedTerm, AllocError>,
    want: Result<CValue, CFault>,
) -> Result<(), Fail> {
    let term = term?;
    assert_eq!(rt; value_of(run, &term), want, "{what}");
    Ok(())
}

#[test]
fn values_numbers(rt: HostRuntime) -> Result<(), Fail> {
    let alloc = rt.alloc();
    let run = sample(alloc)?;
    let rows = [
        (7, BinaryOp::Add, -3, number(4)),
        (i32::MAX, BinaryOp::Add, 1, Err(CFault::Overflow)),
        (i32::MIN, BinaryOp::Subtract, 1, Err(CFault::Overflow)),
        (65536, BinaryOp::Multiply, 32768, Err(CFault::Overflow)),
        (-7, BinaryOp::Divide, 2, number(-3)),
        (-7, BinaryOp::Remainder, 2, number(-1)),
        (7, BinaryOp::Divide, 0, Err(CFault::ZeroDivide)),
        (7, BinaryOp::Remainder, 0, Err(CFault::ZeroDivide)),
        (i32::MIN, BinaryOp::Remainder, -1, Err(CFault::Overflow)),
        (2, BinaryOp::Less, 2, number(0)),
        (2, BinaryOp::LessOrEqual, 2, number(1)),
        (3, BinaryOp::Greater, 2, number(1)),
        (2, BinaryOp::GreaterOrEqual, 3, number(0)),
        (2, BinaryOp::Equal, 2, number(1)),
        (2, BinaryOp::Unequal, 2, number(0)),
    ];
    for (left, op, right, want) in rows {
        let term = between(alloc, constant(left), op, constant(right));
        expect(&rt, &run, "numbers", term, want)?;
    }
    Ok(())
}

#[test]
fn values_single_operands(rt: HostRuntime) -> Result<(), Fail> {
    let alloc = rt.alloc();
    let run = sample(alloc)?;
    let least = prefixed(alloc, UnaryOp::Minus, constant(i32::MIN));
    expect(&rt, &run, "minus the least", least, Err(CFault::Overflow))?;
    let not = prefixed(alloc, UnaryOp::Not, constant(5));
    expect(&rt, &run, "not", not, number(0))?;
    let minus = prefixed(alloc, UnaryOp::Minus, numbers());
    expect(&rt, &run, "minus a pointer", minus, Err(CFault::Kind))?;
    let magnitude = magnitude(alloc, constant(-3));
    expect(&rt, &run, "abs", magnitude, number(3))?;
    let most = most(alloc, Extreme::Min, constant(-3), constant(2));
    expect(&rt, &run, "min", most, number(-3))?;
    expect(&rt, &run, "sizeof", Ok(LinkedTerm::Size), number(4))?;
    let unset = variable(UNSET, AccessType::Number);
    expect(&rt, &run, "unset", Ok(unset), Err(CFault::Unset))
}

#[test]
fn values_only_what_is_needed(rt: HostRuntime) -> Result<(), Fail> {
    let alloc = rt.alloc();
    let run = sample(alloc)?;
    for (left, op, want) in [
        (0, BinaryOp::And, number(0)),
        (1, BinaryOp::And, Err(CFault::ZeroDivide)),
        (2, BinaryOp::Or, number(1)),
        (0, BinaryOp::Or, Err(CFault::ZeroDivide)),
    ] {
        let fault = between(alloc, constant(1), BinaryOp::Divide, constant(0))?;
        let term = between(alloc, constant(left), op, fault);
        expect(&rt, &run, "a right side", term, want)?;
    }
    let fault = between(alloc, constant(1), BinaryOp::Divide, constant(0))?;
    let choice = choice(alloc, constant(4), constant(5), fault);
    expect(&rt, &run, "a choice", choice, number(5))?;
    let fault = between(alloc, constant(1), BinaryOp::Divide, constant(0))?;
    let unset = variable(UNSET, AccessType::Number);
    let term = between(alloc, fault, BinaryOp::Add, unset);
    expect(&rt, &run, "two faults", term, Err(CFault::ZeroDivide))
}

#[test]
fn moves_pointers(rt: HostRuntime) -> Result<(), Fail> {
    let alloc = rt.alloc();
    let run = sample(alloc)?;
    for (count, moved, read) in [
        (0, Ok(pointer(NUMBERS, 0)), number(7)),
        (1, Ok(pointer(NUMBERS, 4)), number(-3)),
        (2, Ok(pointer(NUMBERS, 8)), Err(CFault::Outside)),
        (3, Err(CFault::Outside), Err(CFault::Outside)),
        (-1, Err(CFault::Outside), Err(CFault::Outside)),
    ] {
        let sum = between(alloc, numbers(), BinaryOp::Add, constant(count));
        expect(&rt, &run, "a pointer that moves", sum, moved)?;
        let element = element(alloc, numbers(), constant(count));
        expect(&rt, &run, "an element", element, read)?;
    }
    let held = variable(POINTER, AccessType::Pointer(PointedType::Number));
    let back = between(alloc, held, BinaryOp::Subtract, constant(1))?;
    let read = prefixed(alloc, UnaryOp::Deref, back);
    expect(&rt, &run, "a held pointer", read, number(7))
}

#[test]
fn compares_pointers(rt: HostRuntime) -> Result<(), Fail> {
    let alloc = rt.alloc();
    let run = sample(alloc)?;
    let other = LinkedTerm::Array {
        object: UNSET,
        access: AccessType::Number,
    };
    let equal = between(alloc, numbers(), BinaryOp::Equal, other);
    expect(&rt, &run, "two objects", equal, number(0))?;
    let equal = between(alloc, numbers(), BinaryOp::Equal, numbers());
    expect(&rt, &run, "one object", equal, number(1))?;
    let mixed = between(alloc, numbers(), BinaryOp::Equal, constant(0));
    expect(&rt, &run, "a pointer and 0", mixed, Err(CFault::Kind))
}

#[test]
fn names_places(rt: HostRuntime) -> Result<(), Fail> {
    let alloc = rt.alloc();
    let run = sample(alloc)?;
    let unit = field(alloc, FieldName::Listed(ListField::TransferUnit))?;
    let want = LinkedPlace {
        at: pointer(LIST, 1),
        access: AccessType::Field(FieldType::Number),
    };
    assert_eq!(rt; place_named(&run, &unit), Ok(want));
    let address = prefixed(alloc, UnaryOp::Address, unit);
    expect(&rt, &run, "the address", address, Ok(pointer(LIST, 1)))?;
    let unset = field(alloc, FieldName::Listed(ListField::TransferUnit));
    expect(&rt, &run, "an unset field", unset, Err(CFault::Unset))?;
    let foreign = field(alloc, FieldName::Listed(ListField::OpenUnit));
    expect(&rt, &run, "another list's", foreign, Err(CFault::Kind))?;
    let unlisted = field_name(alloc, b"ciunits")?;
    let unlisted = field(alloc, unlisted);
    expect(&rt, &run, "no list's", unlisted, Err(CFault::Kind))?;
    let list = variable(LIST, AccessType::List(ListType::Transfer));
    expect(&rt, &run, "a whole list", Ok(list), Err(CFault::Kind))
}

#[test]
fn casts(rt: HostRuntime) -> Result<(), Fail> {
    let alloc = rt.alloc();
    let run = sample(alloc)?;
    for (kind, from, want) in [
        (CastType::Chars, 0, Ok(CValue::Null)),
        (CastType::Chars, 5, Err(CFault::Kind)),
        (CastType::Length, 5, number(5)),
    ] {
        let cast = cast(alloc, kind, constant(from));
        expect(&rt, &run, "a number", cast, want)?;
    }
    let bytes = cast(alloc, CastType::UnsignedChars, numbers())?;
    let byte = element(alloc, bytes, constant(4));
    expect(&rt, &run, "a byte of -3", byte, number(253))?;
    let null = cast(alloc, CastType::Integers, constant(0))?;
    let read = prefixed(alloc, UnaryOp::Deref, null);
    expect(&rt, &run, "null", read, Err(CFault::Outside))
}

#[test]
fn serves_statements(rt: HostRuntime) -> Result<(), Fail> {
    let alloc = rt.alloc();
    let run = sample(alloc)?;
    assert_eq!(rt; test_of(&run, &constant(-1)), Ok(true));
    assert_eq!(rt; test_of(&run, &numbers()), Err(CFault::Kind));
    let first = variable(NUMBERS, AccessType::Number);
    assert_eq!(rt; number_of(&run, &first), Ok(7));
    assert_eq!(rt; number_of(&run, &LinkedTerm::Routine(0)), Err(CFault::Kind));
    let values = values_of(alloc, &run, &[constant(1), numbers()])??;
    let want: &[CValue] = &[CValue::Number(1), pointer(NUMBERS, 0)];
    assert_eq!(rt; values.as_slice(), want);
    let unset = variable(UNSET, AccessType::Number);
    let found = values_of(alloc, &run, &[constant(1), unset])?;
    assert_eq!(rt; found.err(), Some(CFault::Unset));
    Ok(())
}
