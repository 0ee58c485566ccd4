//! The shapes of the lines of prototype files.

ghost use Rattle.std.specs.Prelude.{◌≡◌, ◌++◌, option_to_list, IfOk};
ghost use Rattle.call_lines.specs.LineShapes.{result_for, argument_for, behind_result, arguments_for, shape_for, line_shape, line_shapes};

use crate::names::fortran_name;
use c_tree::declaration::CParam;
use c_tree::types::{ParameterType, ResultType};
use call_shapes::{Argument, NamedShape, Shape, ShapeResult};
use f_tree::Basic;
use plain_data::Items;
use proto_file::Protos;
use prototypes::Prototype;
use std::alloc::{AllocError, Global};

/// What a function is called as, by what it gives.
#[tactic(auto, unfolding(crate::specs::LineShapes::result_for))]
fn result_for(gives: ResultType) -> ShapeResult
    ensures { result ≡ result_for gives }
{
    match gives {
        ResultType::Int => ShapeResult::Subroutine,
        ResultType::Integer => ShapeResult::Function(Basic::Integer),
        ResultType::Logical => ShapeResult::Function(Basic::Logical),
        ResultType::Void => ShapeResult::Function(Basic::Character),
    }
}

/// What stands for a parameter in a call, if something does.
#[tactic(auto, unfolding(crate::specs::LineShapes::argument_for))]
fn argument_for(of: ParameterType) -> Option<Argument>
    ensures { result ≡ argument_for of }
{
    match of {
        ParameterType::Integers => Some(Argument::Integer),
        ParameterType::Logicals => Some(Argument::Logical),
        ParameterType::Chars => Some(Argument::Text),
        ParameterType::Length | ParameterType::Int => None,
        ParameterType::Function(_) => Some(Argument::Procedure),
    }
}

/// The parameters behind those that are the result of a CHARACTER function.
#[tactic(auto, using(std::proofs::lemmas::List::drop_all), unfolding(crate::specs::LineShapes::behind_result))]
fn behind_result(gives: ResultType, params: &[CParam]) -> &[CParam]
    ensures { result.now ≡ behind_result gives params.now }
{
    match gives {
        ResultType::Void => match params {
            [_, _, rest @ ..] => rest,
            _ => &[],
        },
        ResultType::Int | ResultType::Integer | ResultType::Logical => params,
    }
}

/// Arguments, and behind them one more, if there is one.
fn with_argument(
    arguments: Items<Argument>,
    argument: Option<Argument>,
) -> Result<Items<Argument>, AllocError>
    ensures { IfOk result (λ more. more ≡ arguments ++ option_to_list argument) }
{
    let mut more = arguments;
    match argument {
        Some(argument) => {
            more.push(argument)?;
            Ok(more)
        }
        None => Ok(more),
    }
}

/// What stands for parameters in a call.
#[tactic(auto, using(std::proofs::lemmas::Grind::common_steps), unfolding(crate::specs::LineShapes::arguments_for))]
fn arguments_for(alloc: Global, params: &[CParam]) -> Result<Items<Argument>, AllocError>
    ensures { IfOk result (λ arguments. arguments ≡ arguments_for params.now) }
{
    let mut arguments = Items::new(alloc);
    for param in params {
        arguments = with_argument(arguments, argument_for(param.of))?;
    }
    Ok(arguments)
}

/// The shape of a function, by what it gives and its parameters.
#[tactic(auto, unfolding(crate::specs::LineShapes::shape_for))]
fn shape_for(alloc: Global, gives: ResultType, params: &[CParam]) -> Result<Shape, AllocError>
    ensures { IfOk result (λ shape. shape ≡ shape_for gives params.now) }
{
    let result = result_for(gives);
    let arguments = arguments_for(alloc, behind_result(gives, params))?;
    Ok(Shape { result, arguments })
}

/// The shape of a line under its FORTRAN name, if it has one.
#[tactic(auto, unfolding(crate::specs::LineShapes::line_shape))]
fn line_shape(alloc: Global, line: &Prototype) -> Result<Option<NamedShape>, AllocError>
    ensures { IfOk result (λ found. found ≡ line_shape line.now) }
{
    match fortran_name(alloc, line.name.as_slice())? {
        None => Ok(None),
        Some(name) => {
            let shape = shape_for(alloc, line.result, line.params.as_slice())?;
            Ok(Some(NamedShape { name, shape }))
        }
    }
}

/// Shapes, and behind them one more, if there is one.
fn with_shape(
    shapes: Items<NamedShape>,
    shape: Option<NamedShape>,
) -> Result<Items<NamedShape>, AllocError>
    ensures { IfOk result (λ more. more ≡ shapes ++ option_to_list shape) }
{
    let mut more = shapes;
    match shape {
        Some(shape) => {
            more.push(shape)?;
            Ok(more)
        }
        None => Ok(more),
    }
}

/// Shapes, and behind them those of the lines of a prototype file. A line that comes from no FORTRAN name has none.
///
/// # Errors
///
/// Want of memory.
#[tactic(auto, using(std::proofs::lemmas::Grind::common_steps), unfolding(crate::specs::LineShapes::line_shapes))]
pub fn with_lines(
    alloc: Global,
    shapes: Items<NamedShape>,
    protos: &Protos,
) -> Result<Items<NamedShape>, AllocError>
    ensures { IfOk result (λ more. more ≡ shapes ++ line_shapes protos.now) }
{
    let mut more = shapes;
    for line in protos.as_slice() {
        more = with_shape(more, line_shape(alloc, line)?)?;
    }
    Ok(more)
}
