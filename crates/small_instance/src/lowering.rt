//! The first layer: a unit becomes a list of steps.

ghost use Rattle.std.specs.Prelude.{◌≡◌, ℕ, ◌+◌, ◌^◌, ◌<◌, ◌++◌, length, IfOk, OnOk};
ghost use Rattle.small_instance.specs.SourceLanguage.{text_of};
ghost use Rattle.small_instance.specs.Translation.{size_of, sizes_before, position_of, atom_of, passed_of, fill_of, lowered_statement, lowered};

use crate::lowered::{Atom, Passed, Step};
use crate::source::{Argument, Operand, Statement, Unit};
use std::alloc::{AllocError, Global};

/// How many steps a statement becomes.
fn size_of(statement: Statement) -> usize
    ensures { result ≡ size_of statement }
{
    match statement {
        Statement::SetCalling(_, _, _, _, _, _) => 5,
        _ => 1,
    }
}

/// How many steps the first n statements become.
fn sizes_before(body: &[Statement], n: usize) -> usize
    requires { length body.now < 2 ^ 32 }
    ensures same { result ≡ sizes_before body.now n }
    ensures small { result < 2 ^ 35 }
{
    let mut total: usize = 0;
    for (i, statement) in body.iter().enumerate() {
        if i < n {
            total += size_of(*statement);
        }
    }
    total
}

/// The first step of statement n.
fn position_of(body: &[Statement], n: usize) -> usize
    requires { length body.now < 2 ^ 32 }
    ensures { result ≡ position_of body.now n }
{
    1 + sizes_before(body, n)
}

fn atom_of(operand: Operand) -> Atom
    ensures { result ≡ atom_of operand }
{
    match operand {
        Operand::Constant(n) => Atom::Constant(n),
        Operand::Of(place) => Atom::Load(place),
    }
}

fn passed_of(argument: Argument) -> Passed
    ensures { result ≡ passed_of argument }
{
    match argument {
        Argument::ByReference(place) => Passed::Cell(place),
        Argument::ByValue(_) => Passed::Slot,
    }
}

/// Puts a value into its slot.
fn fill_of(second: bool, argument: Argument) -> Step
    ensures { result ≡ fill_of second argument }
{
    match argument {
        Argument::ByReference(_) => Step::Pass,
        Argument::ByValue(operand) => Step::Fill(second, atom_of(operand)),
    }
}

/// Appends the steps of a statement of this body.
fn lower_statement(
    steps: &mut Vec<Step>,
    body: &[Statement],
    statement: Statement,
) -> Result<(), AllocError>
    requires { length body.now < 2 ^ 32 }
    ensures { OnOk result (steps.new.items ≡ steps.old.items ++ lowered_statement body.now statement) }
{
    match statement {
        Statement::Set(place, left, right) => steps.push(Step::Put(
            place,
            atom_of(left),
            atom_of(right),
        ))?,
        Statement::SetCalling(place, left, unit, by_second, first, second) => {
            steps.push(Step::Keep(false, atom_of(left)))?;
            steps.push(fill_of(false, first))?;
            steps.push(fill_of(true, second))?;
            steps.push(Step::Call(unit, by_second, passed_of(first), passed_of(second)))?;
            steps.push(Step::Put(place, Atom::Temporary(false), Atom::Temporary(true)))?;
        }
        Statement::Unless(place, n) => steps.push(Step::Unless(place, position_of(body, n)))?,
        Statement::GoTo(n) => steps.push(Step::Jump(position_of(body, n)))?,
        Statement::Give(operand) => steps.push(Step::Back(atom_of(operand)))?,
        Statement::Stop => steps.push(Step::Halt)?,
    }
    Ok(())
}

/// The steps of a unit of fewer than 2^32 statements. The only error is want of memory.
pub fn lower(alloc: Global, unit: &Unit) -> Result<Vec<Step>, AllocError>
    requires { length unit.now.body.items < 2 ^ 32 }
    ensures { IfOk result (λ steps. steps.items ≡ lowered (text_of unit.now)) }
{
    let mut steps = Vec::new(alloc);
    steps.push(Step::Select(position_of(&unit.body, unit.second)))?;
    for statement in &unit.body {
        lower_statement(&mut steps, &unit.body, *statement)?;
    }
    Ok(steps)
}
