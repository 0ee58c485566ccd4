//! The calls of formatted input on a unit (ANSI X3.9-1978, 12.8 and 13).

ghost use Rattle.std.specs.Prelude.{◌≡◌, List, []};
ghost use Rattle.c_tree.specs.Objects.{Object};
ghost use Rattle.c_tree.specs.Builtins as builtin;
ghost use Rattle.f2c_outside.specs.Rows.{rows_of};
ghost use Rattle.unit_library.specs.Functions.{kind_of};
ghost use Rattle.unit_library.specs.Arguments.{front};
ghost use Rattle.unit_library.specs.Calls.{Calls};

use crate::arguments::argument;
use crate::endings::RunEnding;
use crate::formatted::{behind_items, passed};
use crate::formatted_in_progress::{FORMAT_BYTES, InputInProgress};
use crate::functions::TransferType;
use crate::replies::{cut, ended};
use crate::transfers::TransferInProgress;
use c_tree::outcome::CValue;
use f2c_outside::devices::Device;
use f2c_outside::unit_table::UnitTable;
use formatted_input::{Start, do_fio, e_rsfe, s_rsfe};
use run_bytes::RunBytes;
use run_library::{CallBreak, LibraryReply};

/// The start of formatted input on a unit, outside every transfer. The format is copied out of the objects, and the first record is read.
pub(crate) fn begin_reading(
    values: &[CValue],
    run: &RunBytes,
    units: &mut UnitTable,
    transfer: &mut Option<TransferInProgress>,
) -> Result<LibraryReply<RunEnding>, CallBreak>
    requires { transfer.old ≡ None }
    ensures { Calls (builtin.Begin (kind_of TransferType.FormattedInput)) (front 1 0 values.now) run.now run.now transfer.old transfer.new (rows_of (λ b. (⟦<dyn Device as Device>⟧ b.vtable).device_state b.value) units.old) (rows_of (λ b. (⟦<dyn Device as Device>⟧ b.vtable).device_state b.value) units.new) result }
{
    let pointer = argument(values, 0);
    let mut format = [0; FORMAT_BYTES];
    match s_rsfe(run, units, pointer, &mut format) {
        Ok(Start::Begins(input)) => {
            let held = InputInProgress { input, format };
            *transfer = Some(TransferInProgress::FormattedInput(held));
            Ok(LibraryReply::Gives(0))
        }
        Ok(Start::Answers(number)) => Ok(LibraryReply::Gives(number)),
        Err(end) => cut(end),
    }
}

/// Items of formatted input on a unit, which are given their values.
pub(crate) fn read_formatted(
    values: &[CValue],
    run: &mut RunBytes,
    units: &mut UnitTable,
    held: InputInProgress,
    transfer: &mut Option<TransferInProgress>,
) -> Result<LibraryReply<RunEnding>, CallBreak>
    requires { transfer.old ≡ Some (TransferInProgress.FormattedInput held) }
    ensures { Calls builtin.do_fio (front 3 0 values.now) run.old run.new transfer.old transfer.new (rows_of (λ b. (⟦<dyn Device as Device>⟧ b.vtable).device_state b.value) units.old) (rows_of (λ b. (⟦<dyn Device as Device>⟧ b.vtable).device_state b.value) units.new) result }
{
    let count = argument(values, 0);
    let first = argument(values, 1);
    let size = argument(values, 2);
    held.stands();
    let mut input = held.input;
    let format = held.format;
    let passage = do_fio(&mut input, units, run, count, first, size, &format);
    let going = InputInProgress { input, format };
    *transfer = behind_items(
        passage,
        TransferInProgress::FormattedInput(held),
        TransferInProgress::FormattedInput(going),
    );
    passed(passage)
}

/// The end of formatted input on a unit, in one.
pub(crate) fn finish_reading(
    units: &mut UnitTable,
    held: InputInProgress,
    transfer: &mut Option<TransferInProgress>,
) -> Result<LibraryReply<RunEnding>, CallBreak>
    requires { transfer.old ≡ Some (TransferInProgress.FormattedInput held) }
    ensures { (objects : List Object) → Calls (builtin.Finish (kind_of TransferType.FormattedInput)) [] objects objects transfer.old transfer.new (rows_of (λ b. (⟦<dyn Device as Device>⟧ b.vtable).device_state b.value) units.old) (rows_of (λ b. (⟦<dyn Device as Device>⟧ b.vtable).device_state b.value) units.new) result }
{
    *transfer = None;
    held.stands();
    let format = held.format;
    ended(e_rsfe(held.input, units, &format))
}
