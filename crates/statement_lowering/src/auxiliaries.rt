//! OPEN, CLOSE, BACKSPACE, ENDFILE and REWIND. Section 12.10.

ghost use Rattle.std.specs.Prelude.{◌≡◌, true, OnOk};
ghost use Rattle.f_tree.specs.Lines as lines;
ghost use Rattle.lowered_tree.specs.Shapes as shapes;
ghost use Rattle.statement_lowering.specs.TransferForms as form;
ghost use Rattle.statement_lowering.specs.LoweredTransfers as spec;
ghost use Rattle.statement_lowering.specs.StatementOutcomes.{IsOutcome, IsLoweredForm};

use crate::appending::push_step;
use crate::around::Around;
use crate::controls::{controls_lower, lower_controls, written};
use expression_lowering::LowerError;
use f_tree::statements::{AuxiliaryKind, Control, Direction};
use lowered_tree::{Acting, Step};
use name_facts::NameFacts;
use std::alloc::{AllocError, Global};

/// What a statement on a unit does, as steps have it.
#[tactic(auto, unfolding(f_tree::specs::Lines::auxiliary_of))]
fn kind_of(which: AuxiliaryKind) -> lowered_tree::AuxiliaryKind
    ensures { shapes.kind_of result ≡ lines.auxiliary_of which }
{
    match which {
        AuxiliaryKind::OpenUnit => lowered_tree::AuxiliaryKind::OpenUnit,
        AuxiliaryKind::CloseUnit => lowered_tree::AuxiliaryKind::CloseUnit,
        AuxiliaryKind::Backspace => lowered_tree::AuxiliaryKind::BackspaceUnit,
        AuxiliaryKind::EndFile => lowered_tree::AuxiliaryKind::EndFileUnit,
        AuxiliaryKind::Rewind => lowered_tree::AuxiliaryKind::RewindUnit,
    }
}

/// Appends the steps of a statement on a unit of a form that is lowered.
fn push_auxiliary(
    alloc: Global,
    table: &NameFacts,
    around: Around,
    which: AuxiliaryKind,
    controls: &[Control],
    steps: &mut Vec<Step>,
) -> Result<(), AllocError>
    requires { spec.controls_lower table.now controls.now ≡ true }
    ensures { OnOk result (IsLoweredForm table.now around (spec.controls_lower table.now controls.now) (form.acting_on which controls.now) steps.old.items steps.new.items) }
{
    let words = written(alloc, controls)?;
    let acting = Acting::Auxiliary(kind_of(which), words);
    let way = Direction::Write;
    let values = lower_controls(alloc, table, way, around.free, controls, steps)?;
    push_step(steps, Step::Acts(acting, values, 0))
}

/// OPEN, CLOSE, BACKSPACE, ENDFILE and REWIND. Section 12.10.
#[tactic(auto, unfolding(crate::specs::StatementOutcomes::IsOutcome))]
pub(crate) fn lower_auxiliary(
    alloc: Global,
    table: &NameFacts,
    around: Around,
    which: AuxiliaryKind,
    controls: &[Control],
    steps: &mut Vec<Step>,
) -> Result<(), LowerError>
    ensures { IsOutcome table.now around (spec.controls_lower table.now controls.now) (form.acting_on which controls.now) steps.old.items steps.new.items result }
{
    if !controls_lower(table, controls) {
        return Err(LowerError::NotLowered);
    }
    match push_auxiliary(alloc, table, around, which, controls, steps) {
        Ok(()) => Ok(()),
        Err(AllocError) => Err(LowerError::NoMemory),
    }
}
