//! The calls of list-directed output on an internal file (ANSI X3.9-1978, 12.2.5, 12.8 and 13.6.2).

ghost use Rattle.std.specs.Prelude.{◌≡◌, List, [], length};
ghost use Rattle.c_tree.specs.Builtins as builtin;
ghost use Rattle.f2c_outside.specs.Table.{Row};
ghost use Rattle.library_calls.specs.Room.{HasRoom};
ghost use Rattle.unit_library.specs.Functions.{kind_of};
ghost use Rattle.unit_library.specs.Arguments.{front};
ghost use Rattle.unit_library.specs.Calls.{Calls};

use crate::arguments::argument;
use crate::endings::RunEnding;
use crate::functions::TransferType;
use crate::replies::{broken, ended, passed};
use crate::transfers::{TransferInProgress, behind_items};
use c_tree::outcome::{CFault, CValue};
use internal_output::{InternalOutput, do_lio, e_wsli, s_wsli};
use run_bytes::RunBytes;
use run_library::{CallBreak, LibraryReply};

/// The start of list-directed output on an internal file, outside every transfer.
pub(crate) fn begin_internal(
    values: &[CValue],
    run: &RunBytes,
    transfer: &mut Option<TransferInProgress>,
) -> Result<LibraryReply<RunEnding>, CallBreak>
    requires { transfer.old ≡ None }
    ensures { (rows : List Row) → Calls (builtin.Begin (kind_of TransferType.InternalListedOutput)) (front 1 0 values.now) run.now run.now transfer.old transfer.new rows rows result }
{
    let pointer = argument(values, 0);
    match s_wsli(run, pointer) {
        Ok(output) => {
            *transfer = Some(TransferInProgress::InternalOutput(output));
            Ok(LibraryReply::Gives(0))
        }
        Err(fault) => broken(fault),
    }
}

/// Items of list-directed output on an internal file. The buffer is as long as the largest object.
pub(crate) fn put_internal(
    values: &[CValue],
    run: &mut RunBytes,
    buffer: &mut [u8],
    output: InternalOutput,
    transfer: &mut Option<TransferInProgress>,
) -> Result<LibraryReply<RunEnding>, CallBreak>
    requires room { HasRoom (length buffer.old) run.old }
    requires held { transfer.old ≡ Some (TransferInProgress.InternalOutput output) }
    ensures { (rows : List Row) → Calls builtin.do_lio (front 4 0 values.now) run.old run.new transfer.old transfer.new rows rows result }
{
    let kind = argument(values, 0);
    let count = argument(values, 1);
    let first = argument(values, 2);
    let size = argument(values, 3);
    let mut going = output;
    let passage = do_lio(&mut going, run, buffer, kind, count, first, size);
    *transfer = behind_items(
        passage,
        TransferInProgress::InternalOutput(output),
        TransferInProgress::InternalOutput(going),
    );
    passed(passage)
}

/// The end of list-directed output on an internal file, in one.
pub(crate) fn finish_internal(
    run: &mut RunBytes,
    output: InternalOutput,
    transfer: &mut Option<TransferInProgress>,
) -> Result<LibraryReply<RunEnding>, CallBreak>
    requires { transfer.old ≡ Some (TransferInProgress.InternalOutput output) }
    ensures { (rows : List Row) → Calls (builtin.Finish (kind_of TransferType.InternalListedOutput)) [] run.old run.new transfer.old transfer.new rows rows result }
{
    *transfer = None;
    ended(e_wsli(output, run))
}
