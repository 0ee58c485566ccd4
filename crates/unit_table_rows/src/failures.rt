//! What calls leave whose device fails, how often each calls its device, and in which order the devices are finished.

ghost use Rattle.std.specs.Prelude.{◌≡◌, IfErr, IsErrOf, OnOk, true};
ghost use Rattle.f2c_outside.specs.Rows.{rows_of};
ghost use Rattle.f2c_outside.specs.Table.{AtUnit, is_connected};
ghost use Rattle.unit_table_rows.specs.Ends.{the_unit};
ghost use Rattle.unit_table_rows.specs.Failures.{LeftByFailure, LeftByFinish, CalledOnce, CalledUnlessMarked, Three, three_rows, AllFinished, StoppedAtThree};

use f2c_outside::devices::Device;
use f2c_outside::unit_table::{UnitFault, UnitTable};
use run_state::UnitRefusal;

/// Reads a record of unit 3, which is connected, by one call of its device. Where the device fails, the unit stays connected with its end mark and its blanks, and no other row changes.
pub fn read_or_fail(table: &mut UnitTable, into: &mut [u8]) -> Result<(), UnitRefusal>
    requires { is_connected the_unit (rows_of (λ b. (⟦<dyn Device as Device>⟧ b.vtable).device_state b.value) table.old) ≡ true }
    ensures failed { IsErrOf result UnitRefusal.Failed → AtUnit the_unit (rows_of (λ b. (⟦<dyn Device as Device>⟧ b.vtable).device_state b.value) table.old) (rows_of (λ b. (⟦<dyn Device as Device>⟧ b.vtable).device_state b.value) table.new) LeftByFailure }
    ensures called { AtUnit the_unit (rows_of (λ b. (⟦<dyn Device as Device>⟧ b.vtable).device_state b.value) table.old) (rows_of (λ b. (⟦<dyn Device as Device>⟧ b.vtable).device_state b.value) table.new) CalledOnce }
{
    match table.read_from(3, into) {
        Ok(_) => Ok(()),
        Err(refused) => Err(refused),
    }
}

/// Writes a record to unit 3, by one call of its device, and by none where the end mark stands, with the same where the device fails.
pub fn write_or_fail(table: &mut UnitTable) -> Result<(), UnitRefusal>
    requires { is_connected the_unit (rows_of (λ b. (⟦<dyn Device as Device>⟧ b.vtable).device_state b.value) table.old) ≡ true }
    ensures failed { IsErrOf result UnitRefusal.Failed → AtUnit the_unit (rows_of (λ b. (⟦<dyn Device as Device>⟧ b.vtable).device_state b.value) table.old) (rows_of (λ b. (⟦<dyn Device as Device>⟧ b.vtable).device_state b.value) table.new) LeftByFailure }
    ensures called { AtUnit the_unit (rows_of (λ b. (⟦<dyn Device as Device>⟧ b.vtable).device_state b.value) table.old) (rows_of (λ b. (⟦<dyn Device as Device>⟧ b.vtable).device_state b.value) table.new) CalledUnlessMarked }
{
    table.write_to(3, b"A")
}

/// BACKSPACE of unit 3, by one call of its device, and by none where the end mark stands, with the same where the device fails.
pub fn back_or_fail(table: &mut UnitTable) -> Result<(), UnitRefusal>
    requires { is_connected the_unit (rows_of (λ b. (⟦<dyn Device as Device>⟧ b.vtable).device_state b.value) table.old) ≡ true }
    ensures failed { IsErrOf result UnitRefusal.Failed → AtUnit the_unit (rows_of (λ b. (⟦<dyn Device as Device>⟧ b.vtable).device_state b.value) table.old) (rows_of (λ b. (⟦<dyn Device as Device>⟧ b.vtable).device_state b.value) table.new) LeftByFailure }
    ensures called { AtUnit the_unit (rows_of (λ b. (⟦<dyn Device as Device>⟧ b.vtable).device_state b.value) table.old) (rows_of (λ b. (⟦<dyn Device as Device>⟧ b.vtable).device_state b.value) table.new) CalledUnlessMarked }
{
    table.back_unit(3)
}

/// REWIND of unit 3, by one call of its device, with the same where the device fails.
pub fn rewind_or_fail(table: &mut UnitTable) -> Result<(), UnitRefusal>
    requires { is_connected the_unit (rows_of (λ b. (⟦<dyn Device as Device>⟧ b.vtable).device_state b.value) table.old) ≡ true }
    ensures failed { IsErrOf result UnitRefusal.Failed → AtUnit the_unit (rows_of (λ b. (⟦<dyn Device as Device>⟧ b.vtable).device_state b.value) table.old) (rows_of (λ b. (⟦<dyn Device as Device>⟧ b.vtable).device_state b.value) table.new) LeftByFailure }
    ensures called { AtUnit the_unit (rows_of (λ b. (⟦<dyn Device as Device>⟧ b.vtable).device_state b.value) table.old) (rows_of (λ b. (⟦<dyn Device as Device>⟧ b.vtable).device_state b.value) table.new) CalledOnce }
{
    table.rewind_unit(3)
}

/// ENDFILE of unit 3, by one call of its device, and by none where the end mark stands, with the same where the device fails.
pub fn end_or_fail(table: &mut UnitTable) -> Result<(), UnitRefusal>
    requires { is_connected the_unit (rows_of (λ b. (⟦<dyn Device as Device>⟧ b.vtable).device_state b.value) table.old) ≡ true }
    ensures failed { IsErrOf result UnitRefusal.Failed → AtUnit the_unit (rows_of (λ b. (⟦<dyn Device as Device>⟧ b.vtable).device_state b.value) table.old) (rows_of (λ b. (⟦<dyn Device as Device>⟧ b.vtable).device_state b.value) table.new) LeftByFailure }
    ensures called { AtUnit the_unit (rows_of (λ b. (⟦<dyn Device as Device>⟧ b.vtable).device_state b.value) table.old) (rows_of (λ b. (⟦<dyn Device as Device>⟧ b.vtable).device_state b.value) table.new) CalledUnlessMarked }
{
    table.end_unit(3)
}

/// CLOSE of unit 3, with the same where the device fails: the unit keeps its device, with the records and the position that it had.
pub fn close_or_fail(table: &mut UnitTable) -> Result<(), UnitRefusal>
    requires { is_connected the_unit (rows_of (λ b. (⟦<dyn Device as Device>⟧ b.vtable).device_state b.value) table.old) ≡ true }
    ensures failed { IsErrOf result UnitRefusal.Failed → AtUnit the_unit (rows_of (λ b. (⟦<dyn Device as Device>⟧ b.vtable).device_state b.value) table.old) (rows_of (λ b. (⟦<dyn Device as Device>⟧ b.vtable).device_state b.value) table.new) LeftByFailure }
    ensures finish { IsErrOf result UnitRefusal.Failed → AtUnit the_unit (rows_of (λ b. (⟦<dyn Device as Device>⟧ b.vtable).device_state b.value) table.old) (rows_of (λ b. (⟦<dyn Device as Device>⟧ b.vtable).device_state b.value) table.new) LeftByFinish }
{
    match table.close_unit(3) {
        Ok(_) => Ok(()),
        Err(refused) => Err(refused),
    }
}

/// Finishes the devices of the units 5, 1 and 3, which stand in the table in this order. Where unit 3 is answered, the device of unit 1
/// was finished, that of unit 3 failed, and that of unit 5 was not reached.
pub fn finish_three(table: &mut UnitTable) -> Result<(), UnitFault>
    requires { is_connected the_unit (rows_of (λ b. (⟦<dyn Device as Device>⟧ b.vtable).device_state b.value) table.old) ≡ true }
    ensures all { (three : Three) → rows_of (λ b. (⟦<dyn Device as Device>⟧ b.vtable).device_state b.value) table.old ≡ three_rows three
        → OnOk result (AllFinished three (rows_of (λ b. (⟦<dyn Device as Device>⟧ b.vtable).device_state b.value) table.new)) }
    ensures stopped { (three : Three) → rows_of (λ b. (⟦<dyn Device as Device>⟧ b.vtable).device_state b.value) table.old ≡ three_rows three
        → IfErr result (λ fault. fault.unit ≡ the_unit → StoppedAtThree three (rows_of (λ b. (⟦<dyn Device as Device>⟧ b.vtable).device_state b.value) table.new)) }
    ensures among { IfErr result (λ fault. is_connected fault.unit (rows_of (λ b. (⟦<dyn Device as Device>⟧ b.vtable).device_state b.value) table.old) ≡ true) }
{
    table.finish_all()
}
