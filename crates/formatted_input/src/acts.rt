//! The edits that take no item (ANSI X3.9-1978, 13.5).

ghost use Rattle.std.specs.Prelude.{◌≡◌, Some};
ghost use Rattle.f2c_outside.specs.Rows.{rows_of};
ghost use Rattle.c_tree.specs.TransferOutput.{halt_number};
ghost use Rattle.edit_rules.specs.edit_meaning.Formats.{Control, Act};
ghost use Rattle.edit_rules.specs.edit_meaning.Formats as formats;
ghost use Rattle.edit_rules.specs.edit_meaning.TakenRecords.{with_control};
ghost use Rattle.edit_rules.specs.PartPlaces.{edit_in};
ghost use Rattle.taken_records.specs.Records.{halt_of};
ghost use Rattle.formatted_input.specs.Acting.{Does};

use c_tree::outcome::CFault;
use edit_rules::Edit;
use f2c_outside::devices::Device;
use f2c_outside::unit_table::UnitTable;
use listed_input::{LONGEST, NextRecord, fetch};
use taken_records::{Halt, RecordInput};

/// Why an input goes no further.
#[derive(Clone, Copy)]
pub(crate) enum Stop {
    /// Its record or its format halts it, or no record comes next, by the number of an error or of the end of the file.
    Number(i32),
    /// The device of the unit failed.
    Device,
    /// An item has a fault.
    Fault(CFault),
}

/// The number of the error by which a record halts an input.
pub(crate) fn stop_by(halt: Halt) -> Stop
    ensures { result ≡ Stop.Number (halt_number (halt_of halt)) }
{
    match halt {
        Halt::PastColumns => Stop::Number(5),
        Halt::TextInFormat => Stop::Number(10),
        Halt::BadField(error) => Stop::Number(i32::from(error.number())),
        Halt::OtherType => Stop::Number(4),
    }
}

/// Comes to the next record of the unit.
fn next_record(record: &mut RecordInput, units: &mut UnitTable, unit: i32) -> Result<(), Stop>
    requires { Unit {0} }
    ensures { Does (with_control formats.NextRecord) unit record.old record.new (rows_of (λ b. (⟦<dyn Device as Device>⟧ b.vtable).device_state b.value) units.old) (rows_of (λ b. (⟦<dyn Device as Device>⟧ b.vtable).device_state b.value) units.new) result }
{
    let mut line = [b' '; LONGEST];
    match fetch(units, unit, &mut line) {
        NextRecord::Record(used) => {
            record.next_record(&line[..used]);
            Ok(())
        }
        NextRecord::Nothing(number) => Err(Stop::Number(number)),
        NextRecord::Failed => Err(Stop::Device),
    }
}

/// Does an edit that takes no item.
pub(crate) fn act(
    record: &mut RecordInput,
    units: &mut UnitTable,
    unit: i32,
    format: &[u8],
    edit: Edit,
) -> Result<(), Stop>
    requires { Unit {0} }
    ensures { (control : Control) → edit_in format.now edit ≡ Some (Act control) →
        Does (with_control control) unit record.old record.new (rows_of (λ b. (⟦<dyn Device as Device>⟧ b.vtable).device_state b.value) units.old) (rows_of (λ b. (⟦<dyn Device as Device>⟧ b.vtable).device_state b.value) units.new) result }
{
    match edit {
        Edit::NextRecord => next_record(record, units, unit),
        _ => match record.act(edit) {
            Ok(()) => Ok(()),
            Err(halt) => Err(stop_by(halt)),
        },
    }
}
