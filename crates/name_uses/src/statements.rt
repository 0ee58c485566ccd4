//! The names of statements. The names of the arrays of the unit tell assignments from definitions of statement functions.
#![tactic(auto)]

ghost use Rattle.std.specs.Prelude.{◌≡◌, ◌++◌, OnOk};
ghost use Rattle.f_tree.specs.Uses as written;
ghost use Rattle.f_tree.specs.Uses.{used, uses_of, all_of, uses_of_body, uses_of_item, uses_of_value};
ghost use Rattle.f_tree.specs.declared.statements.Control as control;
ghost use Rattle.name_table.specs.Named.{names_in, IsNameSet};
ghost use Rattle.name_uses.specs.UsesSeen.{used_in, manner_in};

use crate::assignments::add_assignment;
use crate::declarations::{
    add_arrays, add_commons, add_constants, add_entry, add_equivalences, add_names,
    add_saved_items, add_typed,
};
use crate::expressions::{add_list_uses, add_optional, add_uses_of};
use crate::items::{add_control, add_data_groups, add_items};
use crate::uses::{Manner, Use, add_use};
use f_tree::{Body, Control, ControlValue, Expr, ListItem};
use name_table::NameSet;
use std::alloc::{AllocError, Global};

/// Adds the names of what stands behind a control word.
#[tactic(auto, unfolding(f_tree::specs::Uses::uses_of_value))]
fn add_value<'a>(uses: &mut Vec<Use<'a>>, value: &'a ControlValue) -> Result<(), AllocError>
    ensures { OnOk result (used_in uses.new.items ≡ used_in uses.old.items ++ uses_of_value value.now) }
{
    match value {
        ControlValue::Value(e) => add_uses_of(uses, e),
        ControlValue::Star | ControlValue::Label(_) => Ok(()),
    }
}

/// Adds the names of a list of control information.
fn add_controls<'a>(uses: &mut Vec<Use<'a>>, controls: &'a [Control]) -> Result<(), AllocError>
    ensures { OnOk result (used_in uses.new.items ≡ used_in uses.old.items ++ all_of (λ (c : control.Control). uses_of_value c.value) controls.now) }
{
    for control in controls {
        add_value(uses, &control.value)?;
    }
    Ok(())
}

/// Adds the names of READ, WRITE or PRINT.
fn add_transfer<'a>(
    uses: &mut Vec<Use<'a>>,
    controls: &'a [Control],
    items: &'a [ListItem],
) -> Result<(), AllocError>
    ensures { OnOk result (used_in uses.new.items
        ≡ used_in uses.old.items ++ (all_of (λ (c : control.Control). uses_of_value c.value) controls.now ++ all_of uses_of_item items.now)) }
{
    add_controls(uses, controls)?;
    add_items(uses, items)
}

/// Adds the names of a CALL.
#[tactic(auto, unfolding(crate::specs::UsesSeen::manner_in))]
fn add_call<'a>(uses: &mut Vec<Use<'a>>, name: &'a [u8], es: &'a [Expr]) -> Result<(), AllocError>
    ensures { OnOk result (used_in uses.new.items ≡ used_in uses.old.items ++ (used name.now written.Called ++ all_of uses_of es.now)) }
{
    add_use(uses, name, Manner::Called)?;
    add_list_uses(uses, es)
}

/// Adds the names of a statement, with those of the statement of a logical IF.
#[cycle(statement)]
#[tactic(auto, using(crate::proofs::BodyForms::body_forms), unfolding(crate::specs::UsesSeen::manner_in))]
pub fn add_statement_uses<'a>(
    alloc: Global,
    arrays: &NameSet,
    uses: &mut Vec<Use<'a>>,
    body: &'a Body,
) -> Result<(), AllocError>
    requires { IsNameSet arrays.now }
    ensures { OnOk result (used_in uses.new.items ≡ used_in uses.old.items ++ uses_of_body (names_in arrays.now) body.now) }
{
    match body {
        Body::Header(..) | Body::Implicit(_) | Body::ImplicitNone | Body::Format(_) => Ok(()),
        Body::Goto(_) | Body::Else | Body::EndIf | Body::EndDo | Body::Continue => Ok(()),
        Body::Stop(_) | Body::Include(_) | Body::End => Ok(()),
        Body::Declare(spec, items) => add_typed(uses, spec, items.as_slice()),
        Body::Dimension(items) => add_arrays(uses, items.as_slice()),
        Body::Common(groups) => add_commons(uses, groups.as_slice()),
        Body::Equivalence(groups) => add_equivalences(uses, groups.as_slice()),
        Body::Parameter(items) => add_constants(uses, items.as_slice()),
        Body::External(names) | Body::Intrinsic(names) => add_names(uses, names.as_slice()),
        Body::Save(items) => add_saved_items(uses, items.as_slice()),
        Body::Init(groups) => add_data_groups(alloc, uses, groups.as_slice()),
        Body::Entry(name, dummies) => add_entry(uses, name.as_slice(), dummies.as_slice()),
        Body::Assign(target, value) => add_assignment(alloc, arrays, uses, target, value),
        Body::AssignLabel(_, name) => add_use(uses, name.as_slice(), Manner::Alone),
        Body::GotoName(name, _) => add_use(uses, name.as_slice(), Manner::Alone),
        Body::GotoList(_, e) | Body::IfSign(e, ..) => add_uses_of(uses, e),
        Body::IfThen(e) | Body::ElseIf(e) | Body::DoWhile(_, e) => add_uses_of(uses, e),
        Body::IfOne(e, body) => {
            add_uses_of(uses, e)?;
            add_statement_uses(alloc, arrays, uses, body.get())
        }
        Body::Do(_, control) => add_control(uses, control),
        Body::Call(name, es) => add_call(uses, name.as_slice(), es.as_slice()),
        Body::Return(e) => add_optional(uses, e),
        Body::Transfer(_, controls, items) => {
            add_transfer(uses, controls.as_slice(), items.as_slice())
        }
        Body::Auxiliary(_, controls) => add_controls(uses, controls.as_slice()),
    }
}
