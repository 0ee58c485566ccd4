//! The end of an output (ANSI X3.9-1978, 12.9.5.2 and 13.3).

ghost use Rattle.std.specs.Prelude.{◌≡◌};
ghost use Rattle.f2c_outside.specs.Rows.{rows_of};
ghost use Rattle.edit_rules.specs.Walks.{StandsIn};
ghost use Rattle.formatted_output.specs.Closing.{Closes, Finishes};

use crate::acts::{Stop, Turn, act, turn_of, write_record};
use edit_rules::FormatWalk;
use f2c_outside::devices::Device;
use f2c_outside::unit_table::UnitTable;
use formatted_records::RecordSheet;

/// Does what the format gives behind the last item.
fn close(
    walk: &mut FormatWalk,
    sheet: &mut RecordSheet,
    units: &mut UnitTable,
    unit: i32,
    format: &[u8],
) -> Result<(), Stop>
    requires { StandsIn walk.old format.now }
    ensures { Closes format.now walk.old unit sheet.old sheet.new (rows_of (λ b. (⟦<dyn Device as Device>⟧ b.vtable).device_state b.value) units.old) (rows_of (λ b. (⟦<dyn Device as Device>⟧ b.vtable).device_state b.value) units.new) result }
{
    'edits: loop {
        let edit = walk.next(format, false);
        match turn_of(edit) {
            Turn::Acts => {
                if let Err(stop) = act(sheet, units, unit, format, edit) {
                    return Err(stop);
                }
            }
            _ => return Ok(()),
        }
    }
}

/// Closes an output: its last record is written.
pub(crate) fn finish(
    walk: &mut FormatWalk,
    sheet: &mut RecordSheet,
    units: &mut UnitTable,
    unit: i32,
    format: &[u8],
) -> Result<(), Stop>
    requires { StandsIn walk.old format.now }
    ensures { Finishes format.now walk.old unit sheet.old (rows_of (λ b. (⟦<dyn Device as Device>⟧ b.vtable).device_state b.value) units.old) (rows_of (λ b. (⟦<dyn Device as Device>⟧ b.vtable).device_state b.value) units.new) result }
{
    match close(walk, sheet, units, unit, format) {
        Ok(()) => match write_record(units, unit, sheet.record()) {
            Ok(()) => Ok(()),
            Err(refusal) => Err(Stop::Refused(refusal)),
        },
        Err(stop) => Err(stop),
    }
}
