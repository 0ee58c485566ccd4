//! The procedures that steps call or pass by their names. Sections 8.7, 15.5, 15.6 and 15.9.

ghost use Rattle.std.specs.Prelude.{◌≡◌, [], fold, bytes_eq, OnOk, IfOk};
ghost use Rattle.std.specs.List.{list_any, flat_map};
ghost use Rattle.f_tree.specs.Facts.{Facts};
ghost use Rattle.lowered_tree.specs.Shapes.{pure_of, pures_of, step_of, steps_of};
ghost use Rattle.unit_file.specs.UnitItems.{procedure_called, procedure_passed, procedures_passed, procedures_named};
ghost use Rattle.unit_translation.specs.UnitContents.{with_name, procedures_by};
ghost use Rattle.unit_contents.specs.ContentsOf.{TellsNames};
ghost use Rattle.unit_contents.specs.Parts.{passed_by};

use f_tree::Class;
use lowered_tree::{Pure, Step, Text};
use name_facts::NameFacts;
use std::alloc::{AllocError, Global};

/// Whether a name is one of some.
fn is_listed(names: &[Text], name: &[u8]) -> bool
    ensures { result ≡ list_any (bytes_eq name.now) names.now }
{
    names.iter().any(|other| name == other.as_slice())
}

/// Adds a name, if none of those that are there is it.
fn add_name(alloc: Global, names: &mut Vec<Text>, name: &[u8]) -> Result<(), AllocError>
    ensures { OnOk result (names.new.items ≡ with_name names.old.items name.now) }
{
    if !is_listed(names.as_slice(), name) {
        names.push(Text::from_slice(alloc, name)?)?;
    }
    Ok(())
}

/// Adds a name of a class, if it is that of a procedure that is called by its name.
#[tactic(auto, unfolding(unit_file::specs::UnitItems::procedure_called))]
fn add_called(
    alloc: Global,
    names: &mut Vec<Text>,
    class: Class,
    name: &[u8],
) -> Result<(), AllocError>
    ensures { OnOk result (names.new.items ≡ fold with_name names.old.items (procedure_called class name.now)) }
{
    match class {
        Class::Procedure | Class::Result | Class::Unit => add_name(alloc, names, name),
        _ => Ok(()),
    }
}

/// Adds a name of a class, if it is that of a procedure that is passed by its name.
#[tactic(auto, unfolding(unit_file::specs::UnitItems::procedure_passed))]
fn add_passed(
    alloc: Global,
    names: &mut Vec<Text>,
    class: Class,
    name: &[u8],
) -> Result<(), AllocError>
    ensures { OnOk result (names.new.items ≡ fold with_name names.old.items (procedure_passed class name.now)) }
{
    match class {
        Class::Procedure => add_name(alloc, names, name),
        _ => Ok(()),
    }
}

/// Adds the procedure that an operand passes by its name, if it passes one.
#[tactic(auto, using(crate::proofs::ProcedureLaws::passed_forms))]
fn add_operand(
    alloc: Global,
    names: &mut Vec<Text>,
    table: &NameFacts,
    operand: &Pure,
) -> Result<(), AllocError>
    ensures { OnOk result ((c : Facts) → TellsNames table.now c → names.new.items ≡ fold with_name names.old.items (passed_by c (pure_of operand.now))) }
{
    match operand {
        Pure::Name(name) => add_passed(alloc, names, table.class(name.as_slice()), name.as_slice()),
        _ => Ok(()),
    }
}

/// Adds the procedures that operands pass by their names.
fn add_operands(
    alloc: Global,
    names: &mut Vec<Text>,
    table: &NameFacts,
    operands: &[Pure],
) -> Result<(), AllocError>
    ensures { OnOk result ((c : Facts) → TellsNames table.now c → names.new.items ≡ fold with_name names.old.items (procedures_passed c (pures_of operands.now))) }
{
    for operand in operands {
        add_operand(alloc, names, table, operand)?;
    }
    Ok(())
}

/// Adds a procedure that is called, and those that its operands pass.
fn add_named(
    alloc: Global,
    names: &mut Vec<Text>,
    table: &NameFacts,
    name: &[u8],
    operands: &[Pure],
) -> Result<(), AllocError>
    ensures { OnOk result ((c : Facts) → TellsNames table.now c → names.new.items ≡ fold with_name names.old.items (procedures_named c name.now (pures_of operands.now))) }
{
    add_called(alloc, names, table.class(name), name)?;
    add_operands(alloc, names, table, operands)
}

/// Adds the procedures that a step calls or passes by their names.
fn add_step(
    alloc: Global,
    names: &mut Vec<Text>,
    table: &NameFacts,
    step: &Step,
) -> Result<(), AllocError>
    ensures { OnOk result ((c : Facts) → TellsNames table.now c → names.new.items ≡ fold with_name names.old.items (procedures_by c (step_of step.now))) }
{
    match step {
        Step::CallFor(_, callee, operands) => {
            add_named(
                alloc,
                names,
                table,
                callee.name.as_slice(),
                operands.as_slice(),
            )
        }
        Step::CallSub(_, name, operands) => {
            add_named(alloc, names, table, name.as_slice(), operands.as_slice())
        }
        _ => Ok(()),
    }
}

/// The procedures that steps call or pass by their names, each once, in the order in which they stand first.
pub(crate) fn procedures_in(
    alloc: Global,
    table: &NameFacts,
    steps: &[Step],
) -> Result<Vec<Text>, AllocError>
    ensures { IfOk result (λ names. (c : Facts) → TellsNames table.now c → names.items ≡ fold with_name [] (flat_map (procedures_by c) (steps_of steps.now))) }
{
    let mut names = Vec::new(alloc);
    for step in steps {
        add_step(alloc, &mut names, table, step)?;
    }
    Ok(names)
}
