//! The functions that end a run (ANSI X3.9-1978, 11.12).

ghost use Rattle.std.specs.Prelude.{List, Option};
ghost use Rattle.c_tree.specs.Builtins as builtin;
ghost use Rattle.f2c_outside.specs.Table.{Row};
ghost use Rattle.unit_library.specs.declared.transfers.TransferInProgress.{TransferInProgress};
ghost use Rattle.unit_library.specs.Arguments.{front};
ghost use Rattle.unit_library.specs.Calls.{Calls};

use crate::arguments::argument;
use crate::endings::RunEnding;
use crate::replies::broken;
use c_tree::outcome::CValue;
use library_calls::{s_rnge, s_stop};
use run_bytes::RunBytes;
use run_library::{CallBreak, LibraryReply};

/// A call of STOP.
pub(crate) fn stop(values: &[CValue], run: &RunBytes) -> Result<LibraryReply<RunEnding>, CallBreak>
    ensures { (held : Option TransferInProgress) → (rows : List Row) → Calls builtin.s_stop (front 2 0 values.now) run.now run.now held held rows rows result }
{
    let pointer = argument(values, 0);
    let size = argument(values, 1);
    match s_stop(run, pointer, size) {
        Ok(text) => {
            if text.is_empty() {
                Ok(LibraryReply::Stops(RunEnding::Plain))
            } else {
                Ok(LibraryReply::Stops(RunEnding::Stop { pointer, size }))
            }
        }
        Err(fault) => broken(fault),
    }
}

/// A call at a place outside its declared bounds.
pub(crate) fn range(values: &[CValue], run: &RunBytes) -> Result<LibraryReply<RunEnding>, CallBreak>
    ensures { (held : Option TransferInProgress) → (rows : List Row) → Calls builtin.s_rnge (front 4 0 values.now) run.now run.now held held rows rows result }
{
    let variable = argument(values, 0);
    let number = argument(values, 1);
    let unit = argument(values, 2);
    let card = argument(values, 3);
    match s_rnge(run, variable, number, unit, card) {
        Ok(_) => Ok(LibraryReply::Stops(RunEnding::Range {
            variable,
            number,
            unit,
            card,
        })),
        Err(fault) => broken(fault),
    }
}
