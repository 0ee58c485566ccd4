//! Values into the record in the making, and complete records to their unit (ANSI X3.9-1978, 13.6.2).

ghost use Rattle.std.specs.Prelude.{[], ◌∷◌};
ghost use Rattle.f2c_outside.specs.Rows.{rows_of};
ghost use Rattle.edit_rules.specs.Writer.{value_of};
ghost use Rattle.listed_output.specs.Writing.{Writes, PutsValue};

use crate::making::RecordInMaking;
use edit_rules::{ListPut, ListValue};
use f2c_outside::devices::Device;
use f2c_outside::unit_table::UnitTable;
use run_state::UnitRefusal;

/// Writes one record to a unit.
pub(crate) fn write_record(
    units: &mut UnitTable,
    unit: i32,
    record: &[u8],
) -> Result<(), UnitRefusal>
    requires { Unit {0} }
    ensures { Writes unit (record.now ∷ []) (rows_of (λ b. (⟦<dyn Device as Device>⟧ b.vtable).device_state b.value) units.old) (rows_of (λ b. (⟦<dyn Device as Device>⟧ b.vtable).device_state b.value) units.new) result }
{
    units.write_to(unit, record)
}

/// Puts a value behind those before it, and writes the records that it completes. The record in the making stays as it was where the
/// unit refuses one.
pub(crate) fn put_value(
    making: &mut RecordInMaking,
    units: &mut UnitTable,
    unit: i32,
    value: ListValue<'_>,
) -> Result<(), UnitRefusal>
    requires { Unit {0} }
    ensures { PutsValue unit (value_of value.entry) making.old.writer making.old.line making.new.writer making.new.line (rows_of (λ b. (⟦<dyn Device as Device>⟧ b.vtable).device_state b.value) units.old) (rows_of (λ b. (⟦<dyn Device as Device>⟧ b.vtable).device_state b.value) units.new) result }
{
    let mut writer = making.writer;
    let mut line = making.line;
    while let ListPut::Full(used) = writer.put(value, &mut line) {
        if let Err(refusal) = write_record(units, unit, &line[..used]) {
            return Err(refusal);
        }
    }
    *making = RecordInMaking { writer, line };
    Ok(())
}
