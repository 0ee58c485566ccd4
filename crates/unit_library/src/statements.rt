//! OPEN, CLOSE, BACKSPACE, REWIND and ENDFILE (ANSI X3.9-1978, 12.10).

ghost use Rattle.std.specs.Prelude.{◌≡◌, ◌∷◌, [], Some, None};
ghost use Rattle.f2c_outside.specs.Rows.{rows_of};
ghost use Rattle.run_library.specs.UnitsCalled.{unit_of_call};
ghost use Rattle.unit_answers.specs.Answers.{IfDevice};
ghost use Rattle.unit_statements.specs.Statements.{AnswersStatement};
ghost use Rattle.unit_library.specs.Functions.{statement_builtin};
ghost use Rattle.unit_library.specs.Arguments.{front};
ghost use Rattle.unit_library.specs.Calls.{Calls};

use crate::arguments::argument;
use crate::endings::RunEnding;
use crate::functions::UnitStatement;
use crate::replies::{broken, ended};
use crate::transfers::TransferInProgress;
use c_tree::outcome::{CFault, CValue};
use f2c_outside::devices::Device;
use f2c_outside::unit_table::UnitTable;
use run_bytes::RunBytes;
use run_library::{CallBreak, LibraryReply};
use unit_answers::CallEnd;
use unit_statements::{f_back, f_clos, f_end, f_open, f_rew};

/// A statement outside every transfer.
fn stated(
    function: UnitStatement,
    run: &RunBytes,
    units: &mut UnitTable,
    pointer: CValue,
) -> Result<i32, CallEnd>
    requires { Unit {0} }
    ensures answers { AnswersStatement (statement_builtin function) run.now pointer (rows_of (λ b. (⟦<dyn Device as Device>⟧ b.vtable).device_state b.value) units.old) (rows_of (λ b. (⟦<dyn Device as Device>⟧ b.vtable).device_state b.value) units.new) result }
    ensures unit { IfDevice result (λ unit. unit_of_call (statement_builtin function) run.now None (pointer ∷ []) ≡ Some unit) (Unit {0}) }
{
    match function {
        UnitStatement::Open => f_open(run, units, pointer),
        UnitStatement::Close => f_clos(run, units, pointer),
        UnitStatement::Back => f_back(run, units, pointer),
        UnitStatement::Rewind => f_rew(run, units, pointer),
        UnitStatement::End => f_end(run, units, pointer),
    }
}

/// A call of a statement. In a transfer it is the fault `Library`.
pub(crate) fn statement(
    function: UnitStatement,
    values: &[CValue],
    run: &RunBytes,
    units: &mut UnitTable,
    transfer: Option<TransferInProgress>,
) -> Result<LibraryReply<RunEnding>, CallBreak>
    requires { Unit {0} }
    ensures { Calls (statement_builtin function) (front 1 0 values.now) run.now run.now transfer transfer (rows_of (λ b. (⟦<dyn Device as Device>⟧ b.vtable).device_state b.value) units.old) (rows_of (λ b. (⟦<dyn Device as Device>⟧ b.vtable).device_state b.value) units.new) result }
{
    let pointer = argument(values, 0);
    match transfer {
        None => ended(stated(function, run, units, pointer)),
        Some(_) => broken(CFault::Library),
    }
}
