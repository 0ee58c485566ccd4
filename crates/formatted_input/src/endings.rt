//! The end of an input (ANSI X3.9-1978, 12.9.5.1 and 13.3).

ghost use Rattle.f2c_outside.specs.Rows.{rows_of};
ghost use Rattle.edit_rules.specs.Walks.{StandsIn};
ghost use Rattle.formatted_input.specs.Reaching.{Closes};

use crate::acts::{Stop, act};
use edit_rules::FormatWalk;
use f2c_outside::devices::Device;
use f2c_outside::unit_table::UnitTable;
use formatted_output::{Turn, turn_of};
use taken_records::RecordInput;

/// Does what the format gives behind the last item. The rest of the record is left.
pub(crate) fn close(
    walk: &mut FormatWalk,
    record: &mut RecordInput,
    units: &mut UnitTable,
    unit: i32,
    format: &[u8],
) -> Result<(), Stop>
    requires { StandsIn walk.old format.now }
    ensures { Closes format.now walk.old unit record.old record.new (rows_of (λ b. (⟦<dyn Device as Device>⟧ b.vtable).device_state b.value) units.old) (rows_of (λ b. (⟦<dyn Device as Device>⟧ b.vtable).device_state b.value) units.new) result }
{
    'edits: loop {
        let edit = walk.next(format, false);
        match turn_of(edit) {
            Turn::Acts => {
                if let Err(stop) = act(record, units, unit, format, edit) {
                    return Err(stop);
                }
            }
            _ => return Ok(()),
        }
    }
}
