//! The calls of list-directed input on a unit (ANSI X3.9-1978, 12.8 and 13.6.1).

ghost use Rattle.std.specs.Prelude.{◌≡◌, List, []};
ghost use Rattle.c_tree.specs.Objects.{Object};
ghost use Rattle.c_tree.specs.Builtins as builtin;
ghost use Rattle.f2c_outside.specs.Table.{Row};
ghost use Rattle.f2c_outside.specs.Rows.{rows_of};
ghost use Rattle.unit_library.specs.Functions.{kind_of};
ghost use Rattle.unit_library.specs.Arguments.{front};
ghost use Rattle.unit_library.specs.Inputs.{behind_start, behind_items, started_by, passed_by};
ghost use Rattle.unit_library.specs.Calls.{Calls};

use crate::arguments::argument;
use crate::endings::RunEnding;
use crate::functions::TransferType;
use crate::replies::{broken, cut};
use crate::transfers::TransferInProgress;
use c_tree::outcome::{CFault, CValue};
use f2c_outside::devices::Device;
use f2c_outside::unit_table::UnitTable;
use listed_input::{InputEnd, ListedInput, Start, do_lio, e_rsle, s_rsle};
use listed_output::Passage;
use run_bytes::RunBytes;
use run_library::{CallBreak, LibraryReply};
use unit_answers::CallEnd;

/// The transfer in progress behind a start.
fn behind_start(start: Result<Start, CallEnd>) -> Option<TransferInProgress>
    ensures { result ≡ behind_start start }
{
    match start {
        Ok(Start::Begins(input)) => Some(TransferInProgress::ListedInput(input)),
        _ => None,
    }
}

/// What the start of an input replies.
fn started(start: Result<Start, CallEnd>) -> Result<LibraryReply<RunEnding>, CallBreak>
    ensures { result ≡ started_by start }
{
    match start {
        Ok(Start::Begins(_)) => Ok(LibraryReply::Gives(0)),
        Ok(Start::Answers(number)) => Ok(LibraryReply::Gives(number)),
        Err(end) => cut(end),
    }
}

/// The transfer in progress behind items. It stays as it was where these have a fault.
fn behind_items(
    passage: Result<Passage, InputEnd>,
    before: ListedInput,
    after: ListedInput,
) -> Option<TransferInProgress>
    ensures { result ≡ behind_items passage before after }
{
    match passage {
        Ok(Passage::GoesOn) => Some(TransferInProgress::ListedInput(after)),
        Err(InputEnd::Call(CallEnd::Fault(_))) => Some(TransferInProgress::ListedInput(before)),
        _ => None,
    }
}

/// What the items of an input reply.
fn passed(passage: Result<Passage, InputEnd>) -> Result<LibraryReply<RunEnding>, CallBreak>
    ensures { result ≡ passed_by passage }
{
    match passage {
        Ok(Passage::GoesOn) => Ok(LibraryReply::Gives(0)),
        Ok(Passage::Over(number)) => Ok(LibraryReply::Gives(number)),
        Err(InputEnd::Call(end)) => cut(end),
        Err(InputEnd::Uncounted) => Err(CallBreak::Uncounted),
    }
}

/// The start of list-directed input on a unit, outside every transfer. It reads the first record.
pub(crate) fn begin_input(
    values: &[CValue],
    run: &RunBytes,
    units: &mut UnitTable,
    transfer: &mut Option<TransferInProgress>,
) -> Result<LibraryReply<RunEnding>, CallBreak>
    requires { transfer.old ≡ None }
    ensures { Calls (builtin.Begin (kind_of TransferType.ListedInput)) (front 1 0 values.now) run.now run.now transfer.old transfer.new (rows_of (λ b. (⟦<dyn Device as Device>⟧ b.vtable).device_state b.value) units.old) (rows_of (λ b. (⟦<dyn Device as Device>⟧ b.vtable).device_state b.value) units.new) result }
{
    let pointer = argument(values, 0);
    let start = s_rsle(run, units, pointer);
    *transfer = behind_start(start);
    started(start)
}

/// Items of list-directed input on a unit, which are given their values.
pub(crate) fn read_listed(
    values: &[CValue],
    run: &mut RunBytes,
    units: &mut UnitTable,
    input: ListedInput,
    transfer: &mut Option<TransferInProgress>,
) -> Result<LibraryReply<RunEnding>, CallBreak>
    requires { transfer.old ≡ Some (TransferInProgress.ListedInput input) }
    ensures { Calls builtin.do_lio (front 4 0 values.now) run.old run.new transfer.old transfer.new (rows_of (λ b. (⟦<dyn Device as Device>⟧ b.vtable).device_state b.value) units.old) (rows_of (λ b. (⟦<dyn Device as Device>⟧ b.vtable).device_state b.value) units.new) result }
{
    let kind = argument(values, 0);
    let count = argument(values, 1);
    let first = argument(values, 2);
    let size = argument(values, 3);
    let mut going = input;
    let passage = do_lio(&mut going, units, run, kind, count, first, size);
    *transfer = behind_items(passage, input, going);
    passed(passage)
}

/// The end of list-directed input on a unit, in one.
pub(crate) fn finish_input(
    input: ListedInput,
    transfer: &mut Option<TransferInProgress>,
) -> Result<LibraryReply<RunEnding>, CallBreak>
    requires { transfer.old ≡ Some (TransferInProgress.ListedInput input) }
    ensures { (objects : List Object) → (rows : List Row) → Calls (builtin.Finish (kind_of TransferType.ListedInput)) [] objects objects transfer.old transfer.new rows rows result }
{
    *transfer = None;
    Ok(LibraryReply::Gives(e_rsle(input)))
}
