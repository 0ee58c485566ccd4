//! What arguments are. Sections 15.9.2 and 15.9.3.
#![tactic(auto)]

ghost use Rattle.std.specs.Prelude.{◌≡◌, IfOk, map};
ghost use Rattle.call_shapes.specs.ProcedureShapes.{argument_of_type};
ghost use Rattle.call_check.specs.CallsSeen.{argument_found, seen_argument};
ghost use Rattle.call_check.specs.ProceduresSeen.{argument_by_class, seen_dummy};

use call_shapes::Argument;
use expression_judge::{Names, Operand, judge};
use f_tree::{Basic, Class, DummyArgument, Expr};
use plain_data::Items;
use std::alloc::{AllocError, Global};

/// A variable, an array or a value by its type.
#[tactic(auto, unfolding(call_shapes::specs::ProcedureShapes::argument_of_type))]
fn argument_of_type(basic: Basic) -> Argument
    ensures { result ≡ argument_of_type basic }
{
    match basic {
        Basic::Integer => Argument::Integer,
        Basic::Logical => Argument::Logical,
        Basic::Character => Argument::Text,
        Basic::Untyped => Argument::Procedure,
    }
}

/// An actual argument by what it is judged to be.
#[tactic(auto, unfolding(crate::specs::CallsSeen::argument_found))]
fn argument_found(what: Operand, basic: Basic) -> Argument
    ensures { result ≡ argument_found what basic }
{
    match what {
        Operand::ProcedureName | Operand::FunctionName => Argument::Procedure,
        Operand::Exit(_) => Argument::Label,
        Operand::Value | Operand::Place | Operand::Array(_) | Operand::Nothing => {
            argument_of_type(basic)
        }
    }
}

/// An actual argument.
#[tactic(auto, unfolding(crate::specs::CallsSeen::seen_argument))]
fn actual_argument(names: &Names, e: &Expr) -> Argument
    ensures { result ≡ seen_argument names.now e.now }
{
    let found = judge(names, e);
    argument_found(found.what, found.basic)
}

/// Actual arguments in their order. An error where memory ran out.
pub(crate) fn actual_arguments(
    alloc: Global,
    names: &Names,
    es: &[Expr],
) -> Result<Items<Argument>, AllocError>
    ensures { IfOk result (λ arguments. arguments ≡ map (seen_argument names.now) es.now) }
{
    let mut arguments = Items::new(alloc);
    for e in es {
        arguments.push(actual_argument(names, e))?;
    }
    Ok(arguments)
}

/// A dummy argument by the class and the type of its name.
#[tactic(auto, unfolding(crate::specs::ProceduresSeen::argument_by_class))]
fn argument_by_class(class: Class, basic: Basic) -> Argument
    ensures { result ≡ argument_by_class class basic }
{
    match class {
        Class::DummyProcedure => Argument::Procedure,
        Class::Constant | Class::Stored | Class::Dummy | Class::Result => argument_of_type(basic),
        Class::Procedure | Class::StatementFunction => argument_of_type(basic),
        Class::Intrinsic | Class::Unit => argument_of_type(basic),
    }
}

/// A dummy argument.
#[tactic(auto, unfolding(crate::specs::ProceduresSeen::seen_dummy))]
fn dummy_argument(names: &Names, dummy: &DummyArgument) -> Argument
    ensures { result ≡ seen_dummy names.now dummy.now }
{
    match dummy {
        DummyArgument::Named(name) => {
            let fact = names.fact(name.as_slice());
            argument_by_class(fact.class, fact.basic)
        }
        DummyArgument::AlternateReturn => Argument::Label,
    }
}

/// Dummy arguments in their order. An error where memory ran out.
pub(crate) fn dummy_arguments(
    alloc: Global,
    names: &Names,
    dummies: &[DummyArgument],
) -> Result<Items<Argument>, AllocError>
    ensures { IfOk result (λ arguments. arguments ≡ map (seen_dummy names.now) dummies.now) }
{
    let mut arguments = Items::new(alloc);
    for dummy in dummies {
        arguments.push(dummy_argument(names, dummy))?;
    }
    Ok(arguments)
}
