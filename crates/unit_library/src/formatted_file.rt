//! The calls of formatted output on an internal file (ANSI X3.9-1978, 12.2.5, 12.8 and 13).

ghost use Rattle.std.specs.Prelude.{◌≡◌, List, []};
ghost use Rattle.c_tree.specs.Builtins as builtin;
ghost use Rattle.f2c_outside.specs.Table.{Row};
ghost use Rattle.unit_library.specs.Functions.{kind_of};
ghost use Rattle.unit_library.specs.Arguments.{front};
ghost use Rattle.unit_library.specs.Calls.{Calls};

use crate::arguments::argument;
use crate::endings::RunEnding;
use crate::formatted::{behind_items, passed};
use crate::formatted_in_progress::{FORMAT_BYTES, InternalInProgress};
use crate::functions::TransferType;
use crate::replies::{cut, ended};
use crate::transfers::TransferInProgress;
use c_tree::outcome::CValue;
use internal_formatted::{Start, do_fio, e_wsfi, s_wsfi};
use run_bytes::RunBytes;
use run_library::{CallBreak, LibraryReply};

/// The start of formatted output on an internal file, outside every transfer. The format is copied out of the objects.
pub(crate) fn begin_in_file(
    values: &[CValue],
    run: &RunBytes,
    transfer: &mut Option<TransferInProgress>,
) -> Result<LibraryReply<RunEnding>, CallBreak>
    requires { transfer.old ≡ None }
    ensures { (rows : List Row) → Calls (builtin.Begin (kind_of TransferType.InternalFormattedOutput)) (front 1 0 values.now) run.now run.now transfer.old transfer.new rows rows result }
{
    let pointer = argument(values, 0);
    let mut format = [0; FORMAT_BYTES];
    match s_wsfi(run, pointer, &mut format) {
        Ok(Start::Begins(output)) => {
            let held = InternalInProgress { output, format };
            *transfer = Some(TransferInProgress::InternalFormatted(held));
            Ok(LibraryReply::Gives(0))
        }
        Ok(Start::Answers(number)) => Ok(LibraryReply::Gives(number)),
        Err(end) => cut(end),
    }
}

/// Items of formatted output on an internal file.
pub(crate) fn put_in_file(
    values: &[CValue],
    run: &mut RunBytes,
    held: InternalInProgress,
    transfer: &mut Option<TransferInProgress>,
) -> Result<LibraryReply<RunEnding>, CallBreak>
    requires { transfer.old ≡ Some (TransferInProgress.InternalFormatted held) }
    ensures { (rows : List Row) → Calls builtin.do_fio (front 3 0 values.now) run.old run.new transfer.old transfer.new rows rows result }
{
    let count = argument(values, 0);
    let first = argument(values, 1);
    let size = argument(values, 2);
    held.stands();
    let mut output = held.output;
    let format = held.format;
    let passage = do_fio(&mut output, run, count, first, size, &format);
    let going = InternalInProgress { output, format };
    *transfer = behind_items(
        passage,
        TransferInProgress::InternalFormatted(held),
        TransferInProgress::InternalFormatted(going),
    );
    passed(passage)
}

/// The end of formatted output on an internal file, in one.
pub(crate) fn finish_in_file(
    run: &mut RunBytes,
    held: InternalInProgress,
    transfer: &mut Option<TransferInProgress>,
) -> Result<LibraryReply<RunEnding>, CallBreak>
    requires { transfer.old ≡ Some (TransferInProgress.InternalFormatted held) }
    ensures { (rows : List Row) → Calls (builtin.Finish (kind_of TransferType.InternalFormattedOutput)) [] run.old run.new transfer.old transfer.new rows rows result }
{
    *transfer = None;
    held.stands();
    let format = held.format;
    ended(e_wsfi(held.output, run, &format))
}
