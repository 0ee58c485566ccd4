//! The functions that assign a text (ANSI X3.9-1978, 6.2.2.2 and 10.4).

ghost use Rattle.std.specs.Prelude.{List, Option, length};
ghost use Rattle.c_tree.specs.Builtins as builtin;
ghost use Rattle.f2c_outside.specs.Table.{Row};
ghost use Rattle.library_calls.specs.Room.{HasRoom};
ghost use Rattle.unit_library.specs.declared.transfers.TransferInProgress.{TransferInProgress};
ghost use Rattle.unit_library.specs.Arguments.{front};
ghost use Rattle.unit_library.specs.Calls.{Calls};

use crate::arguments::argument;
use crate::endings::RunEnding;
use crate::replies::done;
use c_tree::outcome::CValue;
use library_calls::{s_cat, s_copy};
use run_bytes::RunBytes;
use run_library::{CallBreak, LibraryReply};

/// A call that assigns a text. The buffer is as long as the largest object.
pub(crate) fn assign(
    values: &[CValue],
    run: &mut RunBytes,
    buffer: &mut [u8],
) -> Result<LibraryReply<RunEnding>, CallBreak>
    requires { HasRoom (length buffer.old) run.old }
    ensures { (held : Option TransferInProgress) → (rows : List Row) → Calls builtin.s_copy (front 4 0 values.now) run.old run.new held held rows rows result }
{
    let target = argument(values, 0);
    let source = argument(values, 1);
    let target_length = argument(values, 2);
    let source_length = argument(values, 3);
    done(s_copy(run, buffer, target, source, target_length, source_length))
}

/// A call that assigns a concatenation. The buffer is as long as the largest object.
pub(crate) fn join(
    values: &[CValue],
    run: &mut RunBytes,
    buffer: &mut [u8],
) -> Result<LibraryReply<RunEnding>, CallBreak>
    requires { HasRoom (length buffer.old) run.old }
    ensures { (held : Option TransferInProgress) → (rows : List Row) → Calls builtin.s_cat (front 5 0 values.now) run.old run.new held held rows rows result }
{
    let target = argument(values, 0);
    let addresses = argument(values, 1);
    let lengths = argument(values, 2);
    let count = argument(values, 3);
    let target_length = argument(values, 4);
    done(s_cat(
        run,
        buffer,
        target,
        addresses,
        lengths,
        count,
        target_length,
    ))
}
