//! A call of a function of the library (CSTR 149, appendix on the run time library).

ghost use Rattle.std.specs.Prelude.{length};
ghost use Rattle.f2c_outside.specs.Rows.{rows_of};
ghost use Rattle.library_calls.specs.Room.{HasRoom};
ghost use Rattle.unit_library.specs.Functions.{builtin_of, argument_count};
ghost use Rattle.unit_library.specs.Arguments.{front};
ghost use Rattle.unit_library.specs.Calls.{Calls};

use crate::copies::{assign, join};
use crate::endings::RunEnding;
use crate::functions::LibraryFunction;
use crate::listed::{begin, finish, formatted_items, listed_items};
use crate::numbers::{complement, numbers};
use crate::statements::statement;
use crate::stops::{range, stop};
use crate::texts::texts;
use crate::transfers::TransferInProgress;
use c_tree::outcome::CValue;
use f2c_outside::devices::Device;
use f2c_outside::unit_table::UnitTable;
use run_bytes::RunBytes;
use run_library::{CallBreak, LibraryReply};

/// Calls a function with as many values as it takes. The buffer is as long as the largest object.
pub(crate) fn call_function(
    function: LibraryFunction,
    values: &[CValue],
    run: &mut RunBytes,
    units: &mut UnitTable,
    transfer: &mut Option<TransferInProgress>,
    buffer: &mut [u8],
) -> Result<LibraryReply<RunEnding>, CallBreak>
    requires { HasRoom (length buffer.old) run.old }
    ensures { Calls (builtin_of function) (front (argument_count function) 0 values.now) run.old run.new transfer.old transfer.new (rows_of (λ b. (⟦<dyn Device as Device>⟧ b.vtable).device_state b.value) units.old) (rows_of (λ b. (⟦<dyn Device as Device>⟧ b.vtable).device_state b.value) units.new) result }
{
    match function {
        LibraryFunction::Assign => assign(values, run, buffer),
        LibraryFunction::Join => join(values, run, buffer),
        LibraryFunction::Texts(which) => texts(which, values, run),
        LibraryFunction::Numbers(which) => numbers(which, values, run),
        LibraryFunction::Complement => complement(values, run),
        LibraryFunction::Stop => stop(values, run),
        LibraryFunction::Range => range(values, run),
        LibraryFunction::Begin(which) => begin(which, values, run, units, transfer),
        LibraryFunction::Finish(which) => finish(which, run, units, transfer),
        LibraryFunction::FormattedItems => formatted_items(values, run, units, transfer),
        LibraryFunction::ListedItems => listed_items(values, run, units, transfer, buffer),
        LibraryFunction::Statement(which) => statement(which, values, run, units, *transfer),
    }
}
