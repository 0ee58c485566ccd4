//! BACKSPACE, REWIND and ENDFILE (ANSI X3.9-1978, 12.10.4).

ghost use Rattle.f2c_outside.specs.Rows.{rows_of};
ghost use Rattle.c_tree.specs.Builtins as builtin;
ghost use Rattle.unit_answers.specs.Answers.{IfDevice};
ghost use Rattle.unit_statements.specs.Statements.{AnswersStatement, NamesUnit};
ghost use Rattle.control_lists.specs.Files.{positioning};

use crate::statement_ends::answer;
use c_tree::outcome::CValue;
use control_lists::position_list;
use f2c_outside::devices::Device;
use f2c_outside::unit_table::UnitTable;
use run_bytes::RunBytes;
use unit_answers::CallEnd;

/// BACKSPACE (12.10.4.1): clears a standing end mark, or else goes back by one record. It answers 0 or the number of an error.
///
/// # Errors
/// The first fault of the list; the end of the run by a number for which the list does not ask; the unit where its device failed.
pub fn f_back(run: &RunBytes, units: &mut UnitTable, pointer: CValue) -> Result<i32, CallEnd>
    requires { Unit {0} }
    ensures answers { AnswersStatement builtin.f_back run.now pointer (rows_of (λ b. (⟦<dyn Device as Device>⟧ b.vtable).device_state b.value) units.old) (rows_of (λ b. (⟦<dyn Device as Device>⟧ b.vtable).device_state b.value) units.new) result }
    ensures unit { IfDevice result (λ unit. NamesUnit (positioning run.now pointer) unit) (Unit {0}) }
{
    match position_list(run, pointer) {
        Ok(list) => answer(list.unit, list.on_error, units.back_unit(list.unit)),
        Err(fault) => Err(CallEnd::Fault(fault)),
    }
}

/// REWIND (12.10.4.3): goes before the first record. It answers 0 or the number of an error.
///
/// # Errors
/// The first fault of the list; the end of the run by a number for which the list does not ask; the unit where its device failed.
pub fn f_rew(run: &RunBytes, units: &mut UnitTable, pointer: CValue) -> Result<i32, CallEnd>
    requires { Unit {0} }
    ensures answers { AnswersStatement builtin.f_rew run.now pointer (rows_of (λ b. (⟦<dyn Device as Device>⟧ b.vtable).device_state b.value) units.old) (rows_of (λ b. (⟦<dyn Device as Device>⟧ b.vtable).device_state b.value) units.new) result }
    ensures unit { IfDevice result (λ unit. NamesUnit (positioning run.now pointer) unit) (Unit {0}) }
{
    match position_list(run, pointer) {
        Ok(list) => answer(list.unit, list.on_error, units.rewind_unit(list.unit)),
        Err(fault) => Err(CallEnd::Fault(fault)),
    }
}

/// ENDFILE (12.10.4.2): cuts off the records from the position on, and sets the end mark. It answers 0 or the number of an error.
///
/// # Errors
/// The first fault of the list; the end of the run by a number for which the list does not ask; the unit where its device failed.
pub fn f_end(run: &RunBytes, units: &mut UnitTable, pointer: CValue) -> Result<i32, CallEnd>
    requires { Unit {0} }
    ensures answers { AnswersStatement builtin.f_end run.now pointer (rows_of (λ b. (⟦<dyn Device as Device>⟧ b.vtable).device_state b.value) units.old) (rows_of (λ b. (⟦<dyn Device as Device>⟧ b.vtable).device_state b.value) units.new) result }
    ensures unit { IfDevice result (λ unit. NamesUnit (positioning run.now pointer) unit) (Unit {0}) }
{
    match position_list(run, pointer) {
        Ok(list) => answer(list.unit, list.on_error, units.end_unit(list.unit)),
        Err(fault) => Err(CallEnd::Fault(fault)),
    }
}
