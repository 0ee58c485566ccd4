//! The records of a unit, as an input reads them (ANSI X3.9-1978, 12.9.5.1 and 13.6.1).

ghost use Rattle.std.specs.Prelude.{◌≡◌, ℕ, List};
ghost use Rattle.f2c_outside.specs.Rows.{rows_of};
ghost use Rattle.edit_rules.specs.Reader.{kind_of, StandsIn};
ghost use Rattle.listed_input.specs.Fetching.{Fetches, fetched_by};
ghost use Rattle.listed_input.specs.Reading.{Gives, ReadsNext};

use crate::ends::ItemEnd;
use crate::reading::{LONGEST, RecordInReading};
use edit_rules::{ItemKind, ListItem};
use f2c_outside::devices::{Device, Got};
use f2c_outside::unit_table::UnitTable;
use run_state::UnitRefusal;

/// What came of reading the next record of a unit.
#[derive(Clone, Copy)]
pub enum NextRecord {
    /// A record of so many bytes, which stand in front of the line.
    Record(usize),
    /// None that can be read: -1 at the end of the file, 5 for a record that is too long.
    Nothing(i32),
    /// The device failed.
    Failed,
}

/// What an answer of the unit table comes to. A unit that is not connected has no record.
fn fetched(answer: Result<Got, UnitRefusal>) -> NextRecord
    ensures { result ≡ fetched_by answer }
{
    match answer {
        Ok(Got::Line(used)) => NextRecord::Record(used),
        Ok(Got::Long(_)) => NextRecord::Nothing(5),
        Ok(Got::End) => NextRecord::Nothing(-1),
        Ok(Got::Failed) => NextRecord::Failed,
        Err(UnitRefusal::NotConnected) => NextRecord::Nothing(-1),
        Err(_) => NextRecord::Failed,
    }
}

/// Reads the next record of a unit into the front of a line.
pub fn fetch(units: &mut UnitTable, unit: i32, line: &mut [u8; LONGEST]) -> NextRecord
    requires { Unit {0} }
    ensures { Fetches unit line.new (rows_of (λ b. (⟦<dyn Device as Device>⟧ b.vtable).device_state b.value) units.old) (rows_of (λ b. (⟦<dyn Device as Device>⟧ b.vtable).device_state b.value) units.new) result }
{
    let answer = units.read_from(unit, line);
    fetched(answer)
}

impl RecordInReading {
    /// What the next item of this kind is given by the record.
    pub fn next(&mut self, kind: ItemKind) -> ListItem
        ensures { Gives (kind_of kind) self.old self.new result }
    {
        let mut reader = self.reader;
        let item = reader.next(&self.line[..self.used], kind);
        *self = RecordInReading {
            reader,
            line: self.line,
            used: self.used,
        };
        item
    }
}

/// Reads the next record of a unit in place of the one that is being read. It stays where there is none.
pub(crate) fn next_record(
    reading: &mut RecordInReading,
    units: &mut UnitTable,
    unit: i32,
) -> Result<(), ItemEnd>
    requires { (line : List ℕ) → StandsIn reading.old.reader line }
    ensures { ReadsNext unit reading.old reading.new (rows_of (λ b. (⟦<dyn Device as Device>⟧ b.vtable).device_state b.value) units.old) (rows_of (λ b. (⟦<dyn Device as Device>⟧ b.vtable).device_state b.value) units.new) result }
{
    let mut line = [b' '; LONGEST];
    match fetch(units, unit, &mut line) {
        NextRecord::Record(used) => {
            *reading = RecordInReading {
                reader: reading.reader,
                line,
                used,
            };
            Ok(())
        }
        NextRecord::Nothing(number) => Err(ItemEnd::Number(number)),
        NextRecord::Failed => Err(ItemEnd::Device),
    }
}
