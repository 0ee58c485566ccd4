//! The calls of formatted output on a unit (ANSI X3.9-1978, 12.8 and 13).

ghost use Rattle.std.specs.Prelude.{◌≡◌, List, []};
ghost use Rattle.c_tree.specs.Faults.{failing};
ghost use Rattle.c_tree.specs.Objects.{Object};
ghost use Rattle.c_tree.specs.Builtins as builtin;
ghost use Rattle.f2c_outside.specs.Table.{Row};
ghost use Rattle.f2c_outside.specs.Rows.{rows_of};
ghost use Rattle.unit_library.specs.Functions.{kind_of};
ghost use Rattle.unit_library.specs.Arguments.{front};
ghost use Rattle.unit_library.specs.Formatted.{UnderFormat, behind_items, passed_by, listed_fault};
ghost use Rattle.unit_library.specs.Calls.{Calls};

use crate::arguments::argument;
use crate::endings::RunEnding;
use crate::formatted_in_progress::{FORMAT_BYTES, FormattedInProgress};
use crate::functions::TransferType;
use crate::replies::{broken, cut, ended};
use crate::transfers::TransferInProgress;
use c_tree::outcome::{CFault, CValue};
use f2c_outside::devices::Device;
use f2c_outside::unit_table::UnitTable;
use formatted_output::{Passage, Start, do_fio, e_wsfe, s_wsfe};
use listed_output::item_list;
use run_bytes::RunBytes;
use run_library::{CallBreak, LibraryReply};
use unit_answers::CallEnd;

/// The transfer in progress behind items. It stays as it was where these have a fault.
pub(crate) fn behind_items(
    passage: Result<Passage, CallEnd>,
    before: TransferInProgress,
    after: TransferInProgress,
) -> Option<TransferInProgress>
    ensures { result ≡ behind_items passage before after }
{
    match passage {
        Ok(Passage::GoesOn) => Some(after),
        Err(CallEnd::Fault(_)) => Some(before),
        _ => None,
    }
}

/// What the items of an output reply.
pub(crate) fn passed(
    passage: Result<Passage, CallEnd>,
) -> Result<LibraryReply<RunEnding>, CallBreak>
    ensures { result ≡ passed_by passage }
{
    match passage {
        Ok(Passage::GoesOn) => Ok(LibraryReply::Gives(0)),
        Ok(Passage::Over(number)) => Ok(LibraryReply::Gives(number)),
        Err(end) => cut(end),
    }
}

/// The start of formatted output on a unit, outside every transfer. The format is copied out of the objects.
pub(crate) fn begin_formatted(
    values: &[CValue],
    run: &RunBytes,
    units: &UnitTable,
    transfer: &mut Option<TransferInProgress>,
) -> Result<LibraryReply<RunEnding>, CallBreak>
    requires { transfer.old ≡ None }
    ensures { Calls (builtin.Begin (kind_of TransferType.FormattedOutput)) (front 1 0 values.now) run.now run.now transfer.old transfer.new (rows_of (λ b. (⟦<dyn Device as Device>⟧ b.vtable).device_state b.value) units.now) (rows_of (λ b. (⟦<dyn Device as Device>⟧ b.vtable).device_state b.value) units.now) result }
{
    let pointer = argument(values, 0);
    let mut format = [0; FORMAT_BYTES];
    match s_wsfe(run, units, pointer, &mut format) {
        Ok(Start::Begins(output)) => {
            let held = FormattedInProgress { output, format };
            *transfer = Some(TransferInProgress::FormattedOutput(held));
            Ok(LibraryReply::Gives(0))
        }
        Ok(Start::Answers(number)) => Ok(LibraryReply::Gives(number)),
        Err(end) => cut(end),
    }
}

/// Items of formatted output on a unit.
pub(crate) fn put_formatted(
    values: &[CValue],
    run: &RunBytes,
    units: &mut UnitTable,
    held: FormattedInProgress,
    transfer: &mut Option<TransferInProgress>,
) -> Result<LibraryReply<RunEnding>, CallBreak>
    requires { transfer.old ≡ Some (TransferInProgress.FormattedOutput held) }
    ensures { Calls builtin.do_fio (front 3 0 values.now) run.now run.now transfer.old transfer.new (rows_of (λ b. (⟦<dyn Device as Device>⟧ b.vtable).device_state b.value) units.old) (rows_of (λ b. (⟦<dyn Device as Device>⟧ b.vtable).device_state b.value) units.new) result }
{
    let count = argument(values, 0);
    let first = argument(values, 1);
    let size = argument(values, 2);
    held.stands();
    let mut output = held.output;
    let format = held.format;
    let passage = do_fio(&mut output, units, run, count, first, size, &format);
    let going = FormattedInProgress { output, format };
    *transfer = behind_items(
        passage,
        TransferInProgress::FormattedOutput(held),
        TransferInProgress::FormattedOutput(going),
    );
    passed(passage)
}

/// The fault of list-directed items in a formatted transfer: that of what the call says of them, else `Library`.
fn listed_fault(run: &RunBytes, kind: CValue, count: CValue, size: CValue) -> CFault
    ensures { listed_fault run.now kind count size ≡ failing result }
{
    match item_list(run, kind, count, size) {
        Ok(_) => CFault::Library,
        Err(fault) => fault,
    }
}

/// List-directed items in a transfer under a format, in whose place there is a fault.
pub(crate) fn listed_in_formatted(
    values: &[CValue],
    run: &RunBytes,
    transfer: &Option<TransferInProgress>,
) -> Result<LibraryReply<RunEnding>, CallBreak>
    requires { UnderFormat transfer.now }
    ensures { (rows : List Row) → Calls builtin.do_lio (front 4 0 values.now) run.now run.now transfer.now transfer.now rows rows result }
{
    let kind = argument(values, 0);
    let count = argument(values, 1);
    let size = argument(values, 3);
    broken(listed_fault(run, kind, count, size))
}

/// The end of formatted output on a unit, in one.
pub(crate) fn finish_formatted(
    units: &mut UnitTable,
    held: FormattedInProgress,
    transfer: &mut Option<TransferInProgress>,
) -> Result<LibraryReply<RunEnding>, CallBreak>
    requires { transfer.old ≡ Some (TransferInProgress.FormattedOutput held) }
    ensures { (objects : List Object) → Calls (builtin.Finish (kind_of TransferType.FormattedOutput)) [] objects objects transfer.old transfer.new (rows_of (λ b. (⟦<dyn Device as Device>⟧ b.vtable).device_state b.value) units.old) (rows_of (λ b. (⟦<dyn Device as Device>⟧ b.vtable).device_state b.value) units.new) result }
{
    *transfer = None;
    held.stands();
    let format = held.format;
    ended(e_wsfe(held.output, units, &format))
}
