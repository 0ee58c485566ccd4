//! The calls that expressions make. Sections 15.5.2 and 15.6.2.
#![tactic(auto)]

ghost use Rattle.std.specs.Prelude.{◌≡◌, ◌++◌, ◌∷◌, [], OnOk};
ghost use Rattle.statement_parts.specs.TreesSeen.{trees};
ghost use Rattle.call_shapes.specs.CallsMade.{is_procedure_class, calls_within, calls_among};
ghost use Rattle.call_check.specs.CallsSeen.{shape_seen, seen_as, seen_function, seen_subroutine, calls_in_option};

use crate::arguments::actual_arguments;
use call_shapes::{NamedShape, Shape, ShapeResult};
use expression_judge::Names;
use f_tree::{Class, Expr};
use plain_data::{Boxed, Items};
use std::alloc::{AllocError, Global};

/// Whether a name of a class may stand for a procedure of the set: an external one, or the unit itself.
#[tactic(auto, unfolding(call_shapes::specs::CallsMade::is_procedure_class))]
fn is_procedure_class(class: Class) -> bool
    ensures { result ≡ is_procedure_class class }
{
    match class {
        Class::Procedure | Class::Result | Class::Unit => true,
        Class::Constant | Class::Stored | Class::Dummy | Class::DummyProcedure => false,
        Class::StatementFunction | Class::Intrinsic => false,
    }
}

/// Puts a call behind others.
#[tactic(auto, unfolding(crate::specs::CallsSeen::shape_seen))]
fn put_call(
    alloc: Global,
    names: &Names,
    wanted: ShapeResult,
    name: &[u8],
    es: &[Expr],
    calls: &mut Vec<NamedShape>,
) -> Result<(), AllocError>
    ensures { OnOk result (calls.new.items ≡ calls.old.items ++ shape_seen wanted names.now name.now es.now ∷ []) }
{
    let arguments = actual_arguments(alloc, names, es)?;
    let name = Items::from_slice(alloc, name)?;
    let shape = Shape {
        result: wanted,
        arguments,
    };
    calls.push(NamedShape { name, shape })?;
    Ok(())
}

/// Adds the call of a name with these arguments, if the name may stand for a procedure of the set.
#[tactic(auto, unfolding(crate::specs::CallsSeen::seen_as))]
fn add_call(
    alloc: Global,
    names: &Names,
    wanted: ShapeResult,
    name: &[u8],
    es: &[Expr],
    calls: &mut Vec<NamedShape>,
) -> Result<(), AllocError>
    ensures { OnOk result (calls.new.items ≡ calls.old.items ++ seen_as wanted names.now name.now es.now) }
{
    if is_procedure_class(names.fact(name).class) {
        return put_call(alloc, names, wanted, name, es, calls);
    }
    Ok(())
}

/// Adds the call that CALL makes.
#[tactic(auto, unfolding(crate::specs::CallsSeen::seen_subroutine))]
pub(crate) fn add_subroutine_call(
    alloc: Global,
    names: &Names,
    name: &[u8],
    es: &[Expr],
    calls: &mut Vec<NamedShape>,
) -> Result<(), AllocError>
    ensures { OnOk result (calls.new.items ≡ calls.old.items ++ seen_subroutine names.now name.now es.now) }
{
    add_call(alloc, names, ShapeResult::Subroutine, name, es, calls)
}

/// Adds the call that a name with a list makes: a reference to a function of the type that the name has.
#[tactic(auto, unfolding(crate::specs::CallsSeen::seen_function))]
fn add_function_call(
    alloc: Global,
    names: &Names,
    name: &[u8],
    es: &[Expr],
    calls: &mut Vec<NamedShape>,
) -> Result<(), AllocError>
    ensures { OnOk result (calls.new.items ≡ calls.old.items ++ seen_function names.now name.now es.now) }
{
    let wanted = ShapeResult::Function(names.fact(name).basic);
    add_call(alloc, names, wanted, name, es, calls)
}

/// Adds the calls in an expression, from the left.
#[cycle(calls)]
#[tactic(auto, using(crate::proofs::CallForms::call_forms))]
pub(crate) fn add_calls(
    alloc: Global,
    names: &Names,
    e: &Expr,
    calls: &mut Vec<NamedShape>,
) -> Result<(), AllocError>
    ensures { OnOk result (calls.new.items ≡ calls.old.items ++ calls_within (seen_function names.now) e.now) }
{
    match e {
        Expr::Int(_) | Expr::Logical(_) | Expr::Text(_) | Expr::Name(_) => Ok(()),
        Expr::AltReturn(_) | Expr::Bind(..) | Expr::Bound(_) => Ok(()),
        Expr::Apply(name, es) => {
            add_function_call(alloc, names, name.as_slice(), es.as_slice(), calls)?;
            add_list(alloc, names, es.as_slice(), calls)
        }
        Expr::Part(base, from, to) => {
            add_calls(alloc, names, base.get(), calls)?;
            add_place(alloc, names, from, calls)?;
            add_place(alloc, names, to, calls)
        }
        Expr::Minus(operand) | Expr::Plus(operand) => {
            add_calls(alloc, names, operand.get(), calls)
        }
        Expr::Not(operand) | Expr::Paren(operand) => add_calls(alloc, names, operand.get(), calls),
        Expr::Binary(_, left, right) => {
            add_calls(alloc, names, left.get(), calls)?;
            add_calls(alloc, names, right.get(), calls)
        }
    }
}

/// Adds the calls in the first or the last place of a substring.
#[cycle(calls)]
#[tactic(auto, unfolding(crate::specs::CallsSeen::calls_in_option))]
fn add_place(
    alloc: Global,
    names: &Names,
    place: &Option<Boxed<Expr>>,
    calls: &mut Vec<NamedShape>,
) -> Result<(), AllocError>
    ensures { OnOk result (calls.new.items ≡ calls.old.items ++ calls_in_option (seen_function names.now) place.now) }
{
    match place {
        Some(e) => add_calls(alloc, names, e.get(), calls),
        None => Ok(()),
    }
}

/// Adds the calls in expressions.
#[cycle(calls)]
pub(crate) fn add_list(
    alloc: Global,
    names: &Names,
    es: &[Expr],
    calls: &mut Vec<NamedShape>,
) -> Result<(), AllocError>
    ensures { OnOk result (calls.new.items ≡ calls.old.items ++ calls_among (seen_function names.now) es.now) }
{
    for e in es {
        add_calls(alloc, names, e, calls)?;
    }
    Ok(())
}

/// Adds the calls in expressions that stand in different places.
pub(crate) fn add_each(
    alloc: Global,
    names: &Names,
    es: &[&Expr],
    calls: &mut Vec<NamedShape>,
) -> Result<(), AllocError>
    ensures { OnOk result (calls.new.items ≡ calls.old.items ++ calls_among (seen_function names.now) (trees es.now)) }
{
    for e in es {
        add_calls(alloc, names, e, calls)?;
    }
    Ok(())
}
