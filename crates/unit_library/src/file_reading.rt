//! The calls of list-directed input on an internal file (ANSI X3.9-1978, 12.2.5, 12.8 and 13.6.1).

ghost use Rattle.std.specs.Prelude.{◌≡◌, List, [], length};
ghost use Rattle.c_tree.specs.Builtins as builtin;
ghost use Rattle.c_tree.specs.Objects.{Object};
ghost use Rattle.f2c_outside.specs.Table.{Row};
ghost use Rattle.library_calls.specs.Room.{HasRoom};
ghost use Rattle.unit_library.specs.Functions.{kind_of};
ghost use Rattle.unit_library.specs.Arguments.{front};
ghost use Rattle.unit_library.specs.Calls.{Calls};

use crate::arguments::argument;
use crate::endings::RunEnding;
use crate::functions::TransferType;
use crate::replies::{cut, passed};
use crate::transfers::{TransferInProgress, behind_items};
use c_tree::outcome::CValue;
use internal_input::{InternalInput, Start, do_lio, e_rsli, s_rsli};
use run_bytes::RunBytes;
use run_library::{CallBreak, LibraryReply};

/// The start of list-directed input on an internal file, outside every transfer. It reads the first record.
pub(crate) fn begin_from_file(
    values: &[CValue],
    run: &RunBytes,
    transfer: &mut Option<TransferInProgress>,
) -> Result<LibraryReply<RunEnding>, CallBreak>
    requires { transfer.old ≡ None }
    ensures { (rows : List Row) → Calls (builtin.Begin (kind_of TransferType.InternalListedInput)) (front 1 0 values.now) run.now run.now transfer.old transfer.new rows rows result }
{
    let pointer = argument(values, 0);
    match s_rsli(run, pointer) {
        Ok(Start::Begins(input)) => {
            *transfer = Some(TransferInProgress::InternalInput(input));
            Ok(LibraryReply::Gives(0))
        }
        Ok(Start::Answers(number)) => Ok(LibraryReply::Gives(number)),
        Err(end) => cut(end),
    }
}

/// Items of list-directed input on an internal file, which are given their values. The buffer is as long as the largest object.
pub(crate) fn read_from_file(
    values: &[CValue],
    run: &mut RunBytes,
    buffer: &mut [u8],
    input: InternalInput,
    transfer: &mut Option<TransferInProgress>,
) -> Result<LibraryReply<RunEnding>, CallBreak>
    requires room { HasRoom (length buffer.old) run.old }
    requires held { transfer.old ≡ Some (TransferInProgress.InternalInput input) }
    ensures { (rows : List Row) → Calls builtin.do_lio (front 4 0 values.now) run.old run.new transfer.old transfer.new rows rows result }
{
    let kind = argument(values, 0);
    let count = argument(values, 1);
    let first = argument(values, 2);
    let size = argument(values, 3);
    let mut going = input;
    let passage = do_lio(&mut going, run, buffer, kind, count, first, size);
    *transfer = behind_items(
        passage,
        TransferInProgress::InternalInput(input),
        TransferInProgress::InternalInput(going),
    );
    passed(passage)
}

/// The end of list-directed input on an internal file, in one.
pub(crate) fn finish_from_file(
    input: InternalInput,
    transfer: &mut Option<TransferInProgress>,
) -> Result<LibraryReply<RunEnding>, CallBreak>
    requires { transfer.old ≡ Some (TransferInProgress.InternalInput input) }
    ensures { (objects : List Object) → (rows : List Row) → Calls (builtin.Finish (kind_of TransferType.InternalListedInput)) [] objects objects transfer.old transfer.new rows rows result }
{
    *transfer = None;
    Ok(LibraryReply::Gives(e_rsli(input)))
}
