//! How the shape of a call differs from that of the procedure that it calls. Sections 15.5.2.2, 15.6.2.2 and 15.9.3.
#![tactic(auto)]

ghost use Rattle.std.specs.Prelude.{◌≡◌, ◌++◌, ◌∷◌, [], OnOk, IfOk, option_copied};
ghost use Rattle.f_tree.specs.Association.{same_basic};
ghost use Rattle.call_shapes.specs.Disagreements as spec;

use call_shapes::{Argument, NamedShape, Reason, Shape, ShapeResult};
use f_tree::Basic;
use plain_data::Items;
use std::alloc::{AllocError, Global};

/// Whether two types are one type that has values.
#[tactic(auto, unfolding(f_tree::specs::Association::same_basic))]
fn is_same_type(one: Basic, other: Basic) -> bool
    ensures { result ≡ same_basic one other }
{
    match (one, other) {
        (Basic::Integer, Basic::Integer) => true,
        (Basic::Logical, Basic::Logical) => true,
        (Basic::Character, Basic::Character) => true,
        _ => false,
    }
}

/// Whether two arguments are alike.
#[tactic(auto, unfolding(call_shapes::specs::Disagreements::same_argument))]
fn is_same_argument(actual: Argument, dummy: Argument) -> bool
    ensures { result ≡ spec.same_argument actual dummy }
{
    match (actual, dummy) {
        (Argument::Integer, Argument::Integer) => true,
        (Argument::Logical, Argument::Logical) => true,
        (Argument::Text, Argument::Text) => true,
        (Argument::Procedure, Argument::Procedure) => true,
        (Argument::Label, Argument::Label) => true,
        _ => false,
    }
}

/// How what a call wants differs from what a procedure gives.
#[tactic(auto, unfolding(call_shapes::specs::Disagreements::result_differs))]
fn result_differs(call: ShapeResult, procedure: ShapeResult) -> Option<Reason>
    ensures { result ≡ spec.result_differs call procedure }
{
    match (call, procedure) {
        (ShapeResult::Subroutine, ShapeResult::Subroutine) => None,
        (ShapeResult::Subroutine, ShapeResult::Function(_)) => Some(Reason::AsSubroutine),
        (ShapeResult::Function(_), ShapeResult::Subroutine) => Some(Reason::AsFunction),
        (ShapeResult::Function(wanted), ShapeResult::Function(given)) => {
            if is_same_type(wanted, given) {
                None
            } else {
                Some(Reason::ResultType)
            }
        }
    }
}

/// How the number of actual arguments differs from that of dummy arguments.
#[tactic(auto, unfolding(call_shapes::specs::Disagreements::count_differs))]
fn count_differs(actual: usize, dummy: usize) -> Option<Reason>
    ensures { result ≡ spec.count_differs actual dummy }
{
    if actual == dummy {
        None
    } else {
        Some(Reason::Count { actual, dummy })
    }
}

/// The first argument that differs from the dummy argument at its place.
#[tactic(auto, unfolding(call_shapes::specs::Disagreements::argument_differs))]
fn argument_differs(arguments: &[Argument], dummies: &[Argument]) -> Option<Reason>
    ensures { result ≡ spec.argument_differs 1 arguments.now dummies.now }
{
    let mut later = dummies;
    for (index, argument) in arguments.iter().enumerate() {
        let [dummy, rest @ ..] = later else {
            return None;
        };
        if !is_same_argument(*argument, *dummy) {
            return Some(Reason::Argument(index + 1));
        }
        later = rest;
    }
    None
}

/// The first way in which a call with some arguments differs from a procedure.
#[tactic(auto, unfolding(call_shapes::specs::Disagreements::shapes_differ, f_tree::specs::Attributes::first_of_two))]
fn shapes_differ(wanted: ShapeResult, arguments: &[Argument], procedure: &Shape) -> Option<Reason>
    ensures { result ≡ spec.shapes_differ wanted arguments.now procedure.now }
{
    let dummies = procedure.arguments.as_slice();
    if let Some(reason) = result_differs(wanted, procedure.result) {
        return Some(reason);
    }
    if let Some(reason) = count_differs(arguments.len(), dummies.len()) {
        return Some(reason);
    }
    argument_differs(arguments, dummies)
}

/// Puts an argument behind others unless it is a label.
#[tactic(auto, unfolding(call_shapes::specs::Disagreements::without_labels))]
fn add_unless_label(kept: &mut Items<Argument>, argument: Argument) -> Result<(), AllocError>
    ensures { OnOk result (kept.new ≡ kept.old ++ spec.without_labels (argument ∷ [])) }
{
    match argument {
        Argument::Label => Ok(()),
        Argument::Integer | Argument::Logical => kept.push(argument),
        Argument::Text | Argument::Procedure => kept.push(argument),
    }
}

/// Arguments without labels: a line of prototypes has none.
fn without_labels(alloc: Global, arguments: &[Argument]) -> Result<Items<Argument>, AllocError>
    ensures { IfOk result (λ kept. kept ≡ spec.without_labels arguments.now) }
{
    let mut kept = Items::new(alloc);
    for argument in arguments {
        add_unless_label(&mut kept, *argument)?;
    }
    Ok(kept)
}

/// The first shape with a name.
fn shape_among<'a>(name: &[u8], shapes: &'a [NamedShape]) -> Option<&'a Shape>
    ensures { option_copied result ≡ spec.shape_among name.now shapes.now }
{
    for named in shapes {
        if named.name.as_slice() == name {
            return Some(&named.shape);
        }
    }
    None
}

/// How a call differs from its counterpart: the procedure of the set with its name, else the first line of prototypes with it, in which labels are
/// left out. None where it agrees or has no counterpart. An error where memory ran out.
#[tactic(auto, unfolding(call_shapes::specs::Disagreements::reason_of, call_shapes::specs::Disagreements::differs_from))]
pub(crate) fn reason_of(
    alloc: Global,
    procedures: &[NamedShape],
    lines: &[NamedShape],
    call: &NamedShape,
) -> Result<Option<Reason>, AllocError>
    ensures { IfOk result (λ reason. reason ≡ spec.reason_of procedures.now lines.now call.now) }
{
    let wanted = &call.shape;
    if let Some(procedure) = shape_among(call.name.as_slice(), procedures) {
        return Ok(shapes_differ(wanted.result, wanted.arguments.as_slice(), procedure));
    }
    let Some(line) = shape_among(call.name.as_slice(), lines) else {
        return Ok(None);
    };
    let kept = without_labels(alloc, wanted.arguments.as_slice())?;
    Ok(shapes_differ(wanted.result, kept.as_slice(), line))
}
