//! The expressions of statements that are executed. Those of specification statements are not among them.
#![tactic(auto)]

ghost use Rattle.std.specs.Prelude.{◌≡◌, ◌++◌, ◌∷◌, [], OnOk};
ghost use Rattle.f_tree.specs.Attributes.{option_list};
ghost use Rattle.declaration_rows.specs.ReferenceRows as rows;
ghost use Rattle.declaration_rows.specs.ReferenceRows.{expressions_of_control, expressions_of_items, expressions_of_value, expressions_of_controls, parts_of};
ghost use Rattle.statement_parts.specs.TreesSeen.{trees};

use f_tree::{Body, Control, ControlValue, Expr, ListItem, LoopControl};
use std::alloc::AllocError;

/// Adds an expression.
fn add_one<'a>(found: &mut Vec<&'a Expr>, e: &'a Expr) -> Result<(), AllocError>
    ensures { OnOk result (trees found.new.items ≡ trees found.old.items ++ e.now ∷ []) }
{
    found.push(e)?;
    Ok(())
}

/// Adds expressions.
fn add_list<'a>(found: &mut Vec<&'a Expr>, es: &'a [Expr]) -> Result<(), AllocError>
    ensures { OnOk result (trees found.new.items ≡ trees found.old.items ++ es.now) }
{
    for e in es {
        add_one(found, e)?;
    }
    Ok(())
}

/// Adds an expression that may be left out.
#[tactic(auto, unfolding(f_tree::specs::Attributes::option_list))]
fn add_optional<'a>(found: &mut Vec<&'a Expr>, e: &'a Option<Expr>) -> Result<(), AllocError>
    ensures { OnOk result (trees found.new.items ≡ trees found.old.items ++ option_list e.now) }
{
    match e {
        Some(e) => add_one(found, e),
        None => Ok(()),
    }
}

/// Adds two expressions.
fn add_two<'a>(found: &mut Vec<&'a Expr>, one: &'a Expr, other: &'a Expr) -> Result<(), AllocError>
    ensures { OnOk result (trees found.new.items ≡ trees found.old.items ++ (one.now ∷ other.now ∷ [])) }
{
    add_one(found, one)?;
    add_one(found, other)
}

/// Adds the first value, the limit and the step of a loop.
#[tactic(auto, unfolding(declaration_rows::specs::ReferenceRows::expressions_of_control))]
fn add_control<'a>(found: &mut Vec<&'a Expr>, control: &'a LoopControl) -> Result<(), AllocError>
    ensures { OnOk result (trees found.new.items ≡ trees found.old.items ++ expressions_of_control control.now) }
{
    add_two(found, &control.first, &control.limit)?;
    add_optional(found, &control.step)
}

/// Adds the expressions of an item of READ, WRITE or PRINT.
#[cycle(items)]
fn add_item<'a>(found: &mut Vec<&'a Expr>, item: &'a ListItem) -> Result<(), AllocError>
    ensures { OnOk result (trees found.new.items ≡ trees found.old.items ++ expressions_of_items (item.now ∷ [])) }
{
    match item {
        ListItem::Item(e) => add_one(found, e),
        ListItem::Loop(items, control) => {
            add_items(found, items.as_slice())?;
            add_control(found, control)
        }
    }
}

/// Adds the expressions of the items of READ, WRITE or PRINT.
#[cycle(items)]
fn add_items<'a>(found: &mut Vec<&'a Expr>, items: &'a [ListItem]) -> Result<(), AllocError>
    ensures { OnOk result (trees found.new.items ≡ trees found.old.items ++ expressions_of_items items.now) }
{
    for item in items {
        add_item(found, item)?;
    }
    Ok(())
}

/// Adds what stands behind a control word, where it is an expression.
#[tactic(auto, unfolding(declaration_rows::specs::ReferenceRows::expressions_of_value))]
fn add_value<'a>(found: &mut Vec<&'a Expr>, value: &'a ControlValue) -> Result<(), AllocError>
    ensures { OnOk result (trees found.new.items ≡ trees found.old.items ++ expressions_of_value value.now) }
{
    match value {
        ControlValue::Value(e) => add_one(found, e),
        ControlValue::Star | ControlValue::Label(_) => Ok(()),
    }
}

/// Adds the expressions of a list of control information.
fn add_controls<'a>(found: &mut Vec<&'a Expr>, controls: &'a [Control]) -> Result<(), AllocError>
    ensures { OnOk result (trees found.new.items ≡ trees found.old.items ++ expressions_of_controls controls.now) }
{
    for control in controls {
        add_value(found, &control.value)?;
    }
    Ok(())
}

/// Adds the expressions of READ, WRITE or PRINT.
fn add_transfer<'a>(
    found: &mut Vec<&'a Expr>,
    controls: &'a [Control],
    items: &'a [ListItem],
) -> Result<(), AllocError>
    ensures { OnOk result (trees found.new.items ≡ trees found.old.items ++ (expressions_of_controls controls.now ++ expressions_of_items items.now)) }
{
    add_controls(found, controls)?;
    add_items(found, items)
}

/// Adds the expressions of a statement, with those of the statement of a logical IF. An error where memory ran out.
#[cycle(statement)]
#[tactic(auto, using(crate::proofs::PartForms::part_forms))]
pub fn add_expressions<'a>(found: &mut Vec<&'a Expr>, body: &'a Body) -> Result<(), AllocError>
    ensures { OnOk result (trees found.new.items ≡ trees found.old.items ++ (parts_of body.now).expressions) }
{
    match body {
        Body::Assign(target, value) => add_two(found, target, value),
        Body::GotoList(_, e) | Body::IfSign(e, ..) => add_one(found, e),
        Body::IfThen(e) | Body::ElseIf(e) | Body::DoWhile(_, e) => add_one(found, e),
        Body::IfOne(e, body) => {
            add_one(found, e)?;
            add_expressions(found, body.get())
        }
        Body::Do(_, control) => add_control(found, control),
        Body::Call(_, es) => add_list(found, es.as_slice()),
        Body::Return(e) => add_optional(found, e),
        Body::Transfer(_, controls, items) => {
            add_transfer(found, controls.as_slice(), items.as_slice())
        }
        Body::Auxiliary(_, controls) => add_controls(found, controls.as_slice()),
        Body::Header(..) | Body::Declare(..) | Body::Dimension(_) | Body::Common(_) => Ok(()),
        Body::Equivalence(_) | Body::Implicit(_) | Body::ImplicitNone => Ok(()),
        Body::Parameter(_) | Body::External(_) | Body::Intrinsic(_) | Body::Save(_) => Ok(()),
        Body::Init(_) | Body::Format(_) | Body::Entry(..) | Body::AssignLabel(..) => Ok(()),
        Body::Goto(_) | Body::GotoName(..) | Body::Else | Body::EndIf | Body::EndDo => Ok(()),
        Body::Continue | Body::Stop(_) | Body::Include(_) | Body::End => Ok(()),
    }
}
