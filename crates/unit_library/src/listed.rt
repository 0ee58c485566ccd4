//! The calls of transfers (ANSI X3.9-1978, 12.8 and 13.6).

ghost use Rattle.std.specs.Prelude.{◌≡◌, List, [], length};
ghost use Rattle.c_tree.specs.Faults.{failing};
ghost use Rattle.c_tree.specs.Objects.{Object};
ghost use Rattle.c_tree.specs.Builtins as builtin;
ghost use Rattle.f2c_outside.specs.Rows.{rows_of};
ghost use Rattle.library_calls.specs.Room.{HasRoom};
ghost use Rattle.unit_library.specs.Functions.{kind_of};
ghost use Rattle.unit_library.specs.Arguments.{front};
ghost use Rattle.unit_library.specs.Transfers.{type_of};
ghost use Rattle.unit_library.specs.Calls.{Calls};
ghost use Rattle.unit_library.specs.Items.{formatted_fault};

use crate::arguments::argument;
use crate::endings::RunEnding;
use crate::file_reading::{begin_from_file, finish_from_file, read_from_file};
use crate::formatted::{begin_formatted, finish_formatted, listed_in_formatted, put_formatted};
use crate::formatted_file::{begin_in_file, finish_in_file, put_in_file};
use crate::formatted_file_reading::{begin_reading_file, finish_reading_file, read_formatted_file};
use crate::formatted_reading::{begin_reading, finish_reading, read_formatted};
use crate::functions::TransferType;
use crate::input::{begin_input, finish_input, read_listed};
use crate::internal::{begin_internal, finish_internal, put_internal};
use crate::replies::{broken, ended, passed, started};
use crate::transfers::{TransferInProgress, behind_items, behind_start, type_of};
use c_tree::outcome::{CFault, CValue};
use control_lists::{count_from, length_from, number_through};
use f2c_outside::devices::Device;
use f2c_outside::unit_table::UnitTable;
use listed_output::{ListedOutput, do_lio, e_wsle, s_wsle};
use run_bytes::RunBytes;
use run_library::{CallBreak, LibraryReply};

/// The start of list-directed output on a unit, outside every transfer.
fn begin_listed(
    values: &[CValue],
    run: &RunBytes,
    units: &UnitTable,
    transfer: &mut Option<TransferInProgress>,
) -> Result<LibraryReply<RunEnding>, CallBreak>
    requires { transfer.old ≡ None }
    ensures { Calls (builtin.Begin (kind_of TransferType.ListedOutput)) (front 1 0 values.now) run.now run.now transfer.old transfer.new (rows_of (λ b. (⟦<dyn Device as Device>⟧ b.vtable).device_state b.value) units.now) (rows_of (λ b. (⟦<dyn Device as Device>⟧ b.vtable).device_state b.value) units.now) result }
{
    let pointer = argument(values, 0);
    let start = s_wsle(run, units, pointer);
    *transfer = behind_start(start);
    started(start)
}

/// The start of a transfer outside every other.
fn begin_first(
    which: TransferType,
    values: &[CValue],
    run: &RunBytes,
    units: &mut UnitTable,
    transfer: &mut Option<TransferInProgress>,
) -> Result<LibraryReply<RunEnding>, CallBreak>
    requires { transfer.old ≡ None }
    ensures { Calls (builtin.Begin (kind_of which)) (front 1 0 values.now) run.now run.now transfer.old transfer.new (rows_of (λ b. (⟦<dyn Device as Device>⟧ b.vtable).device_state b.value) units.old) (rows_of (λ b. (⟦<dyn Device as Device>⟧ b.vtable).device_state b.value) units.new) result }
{
    match which {
        TransferType::ListedOutput => begin_listed(values, run, units, transfer),
        TransferType::ListedInput => begin_input(values, run, units, transfer),
        TransferType::InternalListedOutput => begin_internal(values, run, transfer),
        TransferType::InternalListedInput => begin_from_file(values, run, transfer),
        TransferType::FormattedOutput => begin_formatted(values, run, units, transfer),
        TransferType::FormattedInput => begin_reading(values, run, units, transfer),
        TransferType::InternalFormattedOutput => begin_in_file(values, run, transfer),
        TransferType::InternalFormattedInput => begin_reading_file(values, run, transfer),
    }
}

/// The start of a transfer. In another one it is the fault `Library`.
pub(crate) fn begin(
    which: TransferType,
    values: &[CValue],
    run: &RunBytes,
    units: &mut UnitTable,
    transfer: &mut Option<TransferInProgress>,
) -> Result<LibraryReply<RunEnding>, CallBreak>
    requires { Unit {0} }
    ensures { Calls (builtin.Begin (kind_of which)) (front 1 0 values.now) run.now run.now transfer.old transfer.new (rows_of (λ b. (⟦<dyn Device as Device>⟧ b.vtable).device_state b.value) units.old) (rows_of (λ b. (⟦<dyn Device as Device>⟧ b.vtable).device_state b.value) units.new) result }
{
    match *transfer {
        None => begin_first(which, values, run, units, transfer),
        Some(_) => broken(CFault::Library),
    }
}

/// Items of list-directed output on a unit.
fn put_listed(
    values: &[CValue],
    run: &RunBytes,
    units: &mut UnitTable,
    output: ListedOutput,
    transfer: &mut Option<TransferInProgress>,
) -> Result<LibraryReply<RunEnding>, CallBreak>
    requires { transfer.old ≡ Some (TransferInProgress.ListedOutput output) }
    ensures { Calls builtin.do_lio (front 4 0 values.now) run.now run.now transfer.old transfer.new (rows_of (λ b. (⟦<dyn Device as Device>⟧ b.vtable).device_state b.value) units.old) (rows_of (λ b. (⟦<dyn Device as Device>⟧ b.vtable).device_state b.value) units.new) result }
{
    let kind = argument(values, 0);
    let count = argument(values, 1);
    let first = argument(values, 2);
    let size = argument(values, 3);
    let mut going = output;
    let passage = do_lio(&mut going, units, run, kind, count, first, size);
    *transfer = behind_items(
        passage,
        TransferInProgress::ListedOutput(output),
        TransferInProgress::ListedOutput(going),
    );
    passed(passage)
}

/// List-directed items. Outside every transfer they are the fault `Library`. The buffer is as long as the largest object.
pub(crate) fn listed_items(
    values: &[CValue],
    run: &mut RunBytes,
    units: &mut UnitTable,
    transfer: &mut Option<TransferInProgress>,
    buffer: &mut [u8],
) -> Result<LibraryReply<RunEnding>, CallBreak>
    requires { HasRoom (length buffer.old) run.old }
    ensures { Calls builtin.do_lio (front 4 0 values.now) run.old run.new transfer.old transfer.new (rows_of (λ b. (⟦<dyn Device as Device>⟧ b.vtable).device_state b.value) units.old) (rows_of (λ b. (⟦<dyn Device as Device>⟧ b.vtable).device_state b.value) units.new) result }
{
    match *transfer {
        None => broken(CFault::Library),
        Some(TransferInProgress::ListedOutput(output)) => {
            put_listed(values, run, units, output, transfer)
        }
        Some(TransferInProgress::ListedInput(input)) => {
            read_listed(values, run, units, input, transfer)
        }
        Some(TransferInProgress::InternalOutput(output)) => {
            put_internal(values, run, buffer, output, transfer)
        }
        Some(TransferInProgress::InternalInput(input)) => {
            read_from_file(values, run, buffer, input, transfer)
        }
        Some(TransferInProgress::FormattedOutput(_)) => listed_in_formatted(values, run, transfer),
        Some(TransferInProgress::FormattedInput(_)) => listed_in_formatted(values, run, transfer),
        Some(TransferInProgress::InternalFormattedInput(_)) => {
            listed_in_formatted(values, run, transfer)
        }
        Some(TransferInProgress::InternalFormatted(_)) => listed_in_formatted(
            values, run, transfer,
        ),
    }
}

/// The fault of items under a format in a transfer without one: that of their count or their length, else `Library`.
fn formatted_fault(run: &RunBytes, count: CValue, size: CValue) -> CFault
    ensures { formatted_fault run.now count size ≡ failing result }
{
    match number_through(run, count) {
        Ok(number) => match count_from(number) {
            Ok(_) => match length_from(size) {
                Ok(_) => CFault::Library,
                Err(fault) => fault,
            },
            Err(fault) => fault,
        },
        Err(fault) => fault,
    }
}

/// Items under a format. Outside every transfer they are the fault `Library`, and in one without a format there is a fault in their place.
pub(crate) fn formatted_items(
    values: &[CValue],
    run: &mut RunBytes,
    units: &mut UnitTable,
    transfer: &mut Option<TransferInProgress>,
) -> Result<LibraryReply<RunEnding>, CallBreak>
    requires { Unit {0} }
    ensures { Calls builtin.do_fio (front 3 0 values.now) run.old run.new transfer.old transfer.new (rows_of (λ b. (⟦<dyn Device as Device>⟧ b.vtable).device_state b.value) units.old) (rows_of (λ b. (⟦<dyn Device as Device>⟧ b.vtable).device_state b.value) units.new) result }
{
    let count = argument(values, 0);
    let size = argument(values, 2);
    match *transfer {
        None => broken(CFault::Library),
        Some(going) => match going {
            TransferInProgress::FormattedOutput(held) => {
                put_formatted(values, run, units, held, transfer)
            }
            TransferInProgress::FormattedInput(held) => {
                read_formatted(values, run, units, held, transfer)
            }
            TransferInProgress::InternalFormatted(held) => put_in_file(values, run, held, transfer),
            TransferInProgress::InternalFormattedInput(held) => {
                read_formatted_file(values, run, held, transfer)
            }
            _ => broken(formatted_fault(run, count, size)),
        },
    }
}

/// The end of list-directed output on a unit, in one.
fn finish_listed(
    units: &mut UnitTable,
    output: ListedOutput,
    transfer: &mut Option<TransferInProgress>,
) -> Result<LibraryReply<RunEnding>, CallBreak>
    requires { transfer.old ≡ Some (TransferInProgress.ListedOutput output) }
    ensures { (objects : List Object) → Calls (builtin.Finish (kind_of TransferType.ListedOutput)) [] objects objects transfer.old transfer.new (rows_of (λ b. (⟦<dyn Device as Device>⟧ b.vtable).device_state b.value) units.old) (rows_of (λ b. (⟦<dyn Device as Device>⟧ b.vtable).device_state b.value) units.new) result }
{
    *transfer = None;
    ended(e_wsle(output, units))
}

/// The end of the transfer in progress.
fn finish_own(
    run: &mut RunBytes,
    units: &mut UnitTable,
    going: TransferInProgress,
    transfer: &mut Option<TransferInProgress>,
) -> Result<LibraryReply<RunEnding>, CallBreak>
    requires { transfer.old ≡ Some going }
    ensures { Calls (builtin.Finish (kind_of (type_of going))) [] run.old run.new transfer.old transfer.new (rows_of (λ b. (⟦<dyn Device as Device>⟧ b.vtable).device_state b.value) units.old) (rows_of (λ b. (⟦<dyn Device as Device>⟧ b.vtable).device_state b.value) units.new) result }
{
    match going {
        TransferInProgress::ListedOutput(output) => finish_listed(units, output, transfer),
        TransferInProgress::ListedInput(input) => finish_input(input, transfer),
        TransferInProgress::InternalOutput(output) => finish_internal(run, output, transfer),
        TransferInProgress::InternalInput(input) => finish_from_file(input, transfer),
        TransferInProgress::FormattedOutput(held) => finish_formatted(units, held, transfer),
        TransferInProgress::FormattedInput(held) => finish_reading(units, held, transfer),
        TransferInProgress::InternalFormatted(held) => finish_in_file(run, held, transfer),
        TransferInProgress::InternalFormattedInput(held) => finish_reading_file(
            run, held, transfer,
        ),
    }
}

/// The end of a transfer. Where none is in progress, or one of another kind, it is the fault `Library`.
pub(crate) fn finish(
    which: TransferType,
    run: &mut RunBytes,
    units: &mut UnitTable,
    transfer: &mut Option<TransferInProgress>,
) -> Result<LibraryReply<RunEnding>, CallBreak>
    requires { Unit {0} }
    ensures { Calls (builtin.Finish (kind_of which)) [] run.old run.new transfer.old transfer.new (rows_of (λ b. (⟦<dyn Device as Device>⟧ b.vtable).device_state b.value) units.old) (rows_of (λ b. (⟦<dyn Device as Device>⟧ b.vtable).device_state b.value) units.new) result }
{
    match *transfer {
        None => broken(CFault::Library),
        Some(going) => {
            if which == type_of(going) {
                finish_own(run, units, going, transfer)
            } else {
                broken(CFault::Library)
            }
        }
    }
}
