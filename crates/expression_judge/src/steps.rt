//! Small tests of operands: one value, a value of a type, a place, an actual argument.

ghost use Rattle.std.specs.Prelude.{◌≡◌};
ghost use Rattle.f_tree.specs.Association as types;
ghost use Rattle.declaration_rows.specs.Judgement as rows;
ghost use Rattle.expression_judge.specs.FoundSteps as spec;

use crate::names::Fact;
use crate::operand::{Found, Operand};
use f_tree::{Basic, BinaryOp, Kind};
use kind_order::unless;
use refusal_order::lesser_of;

/// Whether two types are one type that has values.
#[tactic(auto, unfolding(f_tree::specs::Association::same_basic))]
pub fn is_same_basic(one: Basic, other: Basic) -> bool
    ensures { result ≡ types.same_basic one other }
{
    match one {
        Basic::Integer => matches!(other, Basic::Integer),
        Basic::Logical => matches!(other, Basic::Logical),
        Basic::Character => matches!(other, Basic::Character),
        Basic::Untyped => false,
    }
}

/// Whether values of two types may be compared: two texts or two integers. Section 6.3.
#[tactic(auto, unfolding(declaration_rows::specs::Judgement::are_comparable))]
pub(crate) fn are_comparable(one: Basic, other: Basic) -> bool
    ensures { result ≡ rows.are_comparable one other }
{
    match one {
        Basic::Integer => matches!(other, Basic::Integer),
        Basic::Character => matches!(other, Basic::Character),
        Basic::Logical | Basic::Untyped => false,
    }
}

/// A value of a type.
#[tactic(auto, unfolding(crate::specs::FoundSteps::value_found))]
pub(crate) fn value(basic: Basic, fault: Option<Kind>) -> Found
    ensures { result ≡ spec.value_found basic fault }
{
    Found {
        what: Operand::Value,
        basic,
        fault,
    }
}

/// A place of a type.
#[tactic(auto, unfolding(crate::specs::FoundSteps::place_found))]
pub(crate) fn place(basic: Basic, fault: Option<Kind>) -> Found
    ensures { result ≡ spec.place_found basic fault }
{
    Found {
        what: Operand::Place,
        basic,
        fault,
    }
}

/// What is no operand, by the row that says so.
#[tactic(auto, unfolding(crate::specs::FoundSteps::nothing_found))]
pub(crate) fn nothing(kind: Kind, fault: Option<Kind>) -> Found
    ensures { result ≡ spec.nothing_found kind fault }
{
    Found {
        what: Operand::Nothing,
        basic: Basic::Untyped,
        fault: lesser_of(Some(kind), fault),
    }
}

/// The row that an operand breaks where one value is wanted.
#[tactic(auto, unfolding(crate::specs::FoundSteps::one_wanted))]
pub fn one_wanted(what: Operand) -> Option<Kind>
    ensures { result ≡ spec.one_wanted what }
{
    match what {
        Operand::Value | Operand::Place => None,
        Operand::Array(_) => Some(Kind::NumberOfSubscripts),
        Operand::ProcedureName | Operand::FunctionName => Some(Kind::OperandTypes),
        Operand::Exit(_) | Operand::Nothing => Some(Kind::OperandTypes),
    }
}

/// The least row that an operand breaks where one value of a type is wanted.
#[tactic(auto, unfolding(crate::specs::FoundSteps::wanted_found))]
fn wanted(basic: Basic, found: Found) -> Option<Kind>
    ensures { result ≡ spec.wanted_found basic found }
{
    lesser_of(
        one_wanted(found.what),
        unless(is_same_basic(found.basic, basic), Kind::OperandTypes),
    )
}

/// The least of the rows of an operand, and of those that it breaks where one value of a type is wanted.
#[tactic(auto, unfolding(crate::specs::FoundSteps::with_wanted))]
pub fn with_wanted(basic: Basic, found: Found) -> Option<Kind>
    ensures { result ≡ spec.with_wanted basic found }
{
    lesser_of(found.fault, wanted(basic, found))
}

/// The row that an operand breaks as an actual argument of a function.
#[tactic(auto, unfolding(crate::specs::FoundSteps::passed_found))]
pub(crate) fn passed(what: Operand) -> Option<Kind>
    ensures { result ≡ spec.passed_found what }
{
    match what {
        Operand::FunctionName | Operand::Exit(_) => Some(Kind::OperandTypes),
        Operand::Value | Operand::Place | Operand::Array(_) => None,
        Operand::ProcedureName | Operand::Nothing => None,
    }
}

/// The row that an operand breaks as the base of a substring.
#[tactic(auto, unfolding(crate::specs::FoundSteps::place_wanted))]
pub(crate) fn place_wanted(what: Operand) -> Option<Kind>
    ensures { result ≡ spec.place_wanted what }
{
    match what {
        Operand::Place => None,
        Operand::Array(_) => Some(Kind::NumberOfSubscripts),
        Operand::Value | Operand::ProcedureName => Some(Kind::OperandTypes),
        Operand::FunctionName | Operand::Exit(_) | Operand::Nothing => Some(Kind::OperandTypes),
    }
}

/// A variable or an array by its name.
#[tactic(auto, unfolding(crate::specs::FoundSteps::variable_found))]
pub(crate) fn variable(fact: Fact) -> Found
    ensures { result ≡ spec.variable_found fact }
{
    if fact.rank == 0 {
        place(fact.basic, None)
    } else {
        Found {
            what: Operand::Array(fact.sized),
            basic: fact.basic,
            fault: None,
        }
    }
}

/// A procedure by its name alone.
#[tactic(auto, unfolding(crate::specs::FoundSteps::procedure_found))]
pub(crate) fn procedure(fact: Fact) -> Found
    ensures { result ≡ spec.procedure_found fact }
{
    Found {
        what: Operand::ProcedureName,
        basic: fact.basic,
        fault: None,
    }
}

/// A function by its name alone.
#[tactic(auto, unfolding(crate::specs::FoundSteps::function_found))]
pub(crate) fn function(fact: Fact) -> Found
    ensures { result ≡ spec.function_found fact }
{
    Found {
        what: Operand::FunctionName,
        basic: fact.basic,
        fault: None,
    }
}

/// The name of a statement function, or a dummy argument of the one that is being defined.
#[tactic(auto, unfolding(crate::specs::FoundSteps::bound_found))]
pub(crate) fn bound(fact: Fact, is_bound: bool) -> Found
    ensures { result ≡ spec.bound_found fact is_bound }
{
    if is_bound {
        value(fact.basic, None)
    } else {
        function(fact)
    }
}

/// An operand behind a sign or `.NOT.`, which wants and gives a type.
#[tactic(auto, unfolding(crate::specs::FoundSteps::sign_found))]
pub(crate) fn signed(basic: Basic, found: Found) -> Found
    ensures { result ≡ spec.sign_found basic found }
{
    value(basic, with_wanted(basic, found))
}

/// An operand in parentheses.
#[tactic(auto, unfolding(crate::specs::FoundSteps::paren_found))]
pub(crate) fn in_parentheses(found: Found) -> Found
    ensures { result ≡ spec.paren_found found }
{
    value(found.basic, lesser_of(found.fault, one_wanted(found.what)))
}

/// Two operands of one type, which the value has too.
#[tactic(auto, unfolding(crate::specs::FoundSteps::both_found))]
fn both(basic: Basic, left: Found, right: Found) -> Found
    ensures { result ≡ spec.both_found basic left right }
{
    value(
        basic,
        lesser_of(with_wanted(basic, left), with_wanted(basic, right)),
    )
}

/// Two operands that are compared.
#[tactic(auto, unfolding(crate::specs::FoundSteps::compared_found))]
fn compared(left: Found, right: Found) -> Found
    ensures { result ≡ spec.compared_found left right }
{
    let left_fault = lesser_of(left.fault, one_wanted(left.what));
    let right_fault = lesser_of(right.fault, one_wanted(right.what));
    let mismatch = unless(are_comparable(left.basic, right.basic), Kind::OperandTypes);
    value(
        Basic::Logical,
        lesser_of(left_fault, lesser_of(right_fault, mismatch)),
    )
}

/// Two operands with an operator between them. Section 6.
#[tactic(auto, unfolding(crate::specs::FoundSteps::binary_found))]
pub(crate) fn binary(op: BinaryOp, left: Found, right: Found) -> Found
    ensures { result ≡ spec.binary_found op left right }
{
    match op {
        BinaryOp::Power | BinaryOp::Times | BinaryOp::Divide => both(Basic::Integer, left, right),
        BinaryOp::Plus | BinaryOp::Minus => both(Basic::Integer, left, right),
        BinaryOp::Concatenate => both(Basic::Character, left, right),
        BinaryOp::Less | BinaryOp::LessOrEqual | BinaryOp::Equal => compared(left, right),
        BinaryOp::NotEqual | BinaryOp::Greater | BinaryOp::GreaterOrEqual => compared(left, right),
        BinaryOp::And | BinaryOp::Or => both(Basic::Logical, left, right),
        BinaryOp::Equivalent | BinaryOp::NotEquivalent => both(Basic::Logical, left, right),
    }
}

/// A substring, by its base and by the least rows of its two places. Section 5.7.
#[tactic(auto, unfolding(crate::specs::FoundSteps::part_found))]
pub(crate) fn part(base: Found, from: Option<Kind>, to: Option<Kind>) -> Found
    ensures { result ≡ spec.part_found base from to }
{
    let typed = unless(
        is_same_basic(base.basic, Basic::Character),
        Kind::OperandTypes,
    );
    let behind = lesser_of(
        place_wanted(base.what),
        lesser_of(typed, lesser_of(from, to)),
    );
    place(Basic::Character, lesser_of(base.fault, behind))
}

/// Where an alternate return goes.
#[tactic(auto, unfolding(crate::specs::FoundSteps::exit_found))]
pub(crate) fn exit(label: u32) -> Found
    ensures { result ≡ spec.exit_found label }
{
    Found {
        what: Operand::Exit(label),
        basic: Basic::Untyped,
        fault: None,
    }
}
