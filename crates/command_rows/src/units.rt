//! External units with devices in memory, and devices that are offered to OPEN.

use crate::Stop;
use crate::cases::ConnectedUnit;
use f2c_outside::devices::Got;
use f2c_outside::memory_device::MemoryDevice;
use f2c_outside::texts::{Name, NoMemory};
use f2c_outside::unit_table::UnitTable;
use std::alloc::Global;

/// The most records of a unit that are printed.
const MOST_RECORDS: usize = 100;

/// The most bytes of a record that are printed.
const MOST_BYTES: usize = 200;

impl ConnectedUnit {
    /// A number among the words.
    fn number(&self, place: usize) -> Option<u64> {
        match self.words.split(' ').nth(place) {
            Some(word) => word.parse().ok(),
            None => None,
        }
    }

    /// The number of the unit, where there is one.
    pub fn unit(&self) -> Result<Option<i32>, Stop> {
        match self.number(0) {
            Some(number) => match i32::try_from(number) {
                Ok(unit) => Ok(Some(unit)),
                Err(_) => Err(Stop::Failed),
            },
            None => Ok(None),
        }
    }

    /// The name under which the device is offered.
    pub fn name(&self, alloc: Global) -> Result<Name, Stop> {
        match self.words.split(' ').next() {
            Some(word) => Ok(Name::new(alloc, word.as_bytes())?),
            None => Err(Stop::Failed),
        }
    }

    /// Its device, which holds its records.
    pub fn device(&self, alloc: Global) -> Result<MemoryDevice, NoMemory> {
        let mut device = MemoryDevice::new(alloc)?;
        for record in &self.records {
            device.add(record.as_bytes())?;
        }
        if let Some(call) = self.number(1) {
            device.fail_at(call)?;
        }
        Ok(device)
    }
}

/// Adds the records of a unit to some lines.
pub fn add_records(
    alloc: Global,
    lines: &mut Vec<String>,
    units: &mut UnitTable,
    unit: i32,
) -> Result<(), Stop>
    requires { Unit {0} }
{
    let mut line = [0; MOST_BYTES];
    if units.rewind_unit(unit).is_err() {
        return Ok(());
    }
    for _ in 0..MOST_RECORDS {
        let Ok(Got::Line(size)) = units.read_from(unit, &mut line) else {
            return Ok(());
        };
        let text = str::from_utf8(line.get(..size).unwrap_or(b"")).unwrap_or("no text");
        let text = String::from_str(alloc, text)?;
        if lines.push(text).is_err() {
            return Err(Stop::NoMemory);
        }
    }
    Ok(())
}
