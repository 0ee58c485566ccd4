//! A command that is run on a shelf in memory.

use crate::Stop;
use crate::cases::{Case, ConnectedUnit};
use crate::shelves::shelf_of;
use crate::units::add_records;
use f2c_outside::memory_shelf::MemoryShelf;
use f2c_outside::texts::{Name, NoMemory, Words};
use f2c_outside::unit_table::UnitTable;
use f2c_program::{Ended, f2c};
use std::alloc::Global;

/// How a command ended: its status, the shelf, and the records of the units.
#[derive(Drop)]
pub struct Run {
    status: u8,
    shelf: MemoryShelf,
    records: Vec<String>,
}

/// The words of a command, between which stand blanks.
fn words_of(alloc: Global, command: &str) -> Result<Words, NoMemory> {
    let mut words = Words::new(alloc)?;
    for word in command.split_whitespace() {
        words.push(word.as_bytes())?;
    }
    Ok(words)
}

impl Run {
    /// Runs a command on this shelf and over these units.
    fn with_units(
        alloc: Global,
        mut shelf: MemoryShelf,
        command: &str,
        connected: &[ConnectedUnit],
    ) -> Result<Run, Stop> {
        let words = words_of(alloc, command)?;
        let mut units = UnitTable::new(alloc)?;
        for one in connected {
            let Ok(device) = Box::new(alloc, one.device(alloc)?) else {
                return Err(Stop::NoMemory);
            };
            let placed = match one.unit()? {
                Some(unit) => units.connect(unit, device),
                None => units.offer(one.name(alloc)?, device),
            };
            if placed.is_err() {
                return Err(Stop::NoMemory);
            }
        }
        let Ended { status, mut units } = f2c(alloc, &words, &mut shelf, units);
        let mut records = Vec::new(alloc);
        if let Some(first) = connected.first() {
            if let Some(unit) = first.unit()? {
                add_records(alloc, &mut records, &mut units, unit)?;
            }
        }
        Ok(Run {
            status,
            shelf,
            records,
        })
    }

    /// Runs a command on this shelf, with these words, between which stand blanks.
    pub fn over(alloc: Global, shelf: MemoryShelf, command: &str) -> Result<Run, Stop> {
        Run::with_units(alloc, shelf, command, &[])
    }

    /// Runs a command on the shelf of a case, and over its units.
    pub fn of(alloc: Global, case: &Case, command: &str) -> Result<Run, Stop> {
        Run::with_units(alloc, shelf_of(alloc, case)?, command, case.units())
    }

    /// The records of the first unit of the case.
    pub fn records(&self) -> &[String] {
        self.records.as_slice()
    }

    /// The status.
    pub fn status(&self) -> u8 {
        self.status
    }

    /// What was put on Fault.
    pub fn fault(&self) -> &str {
        str::from_utf8(self.shelf.fault_text()).unwrap_or("no text")
    }

    /// What is printed of a source: that it is accepted, or the line on Fault.
    pub fn verdict(&self) -> &str {
        if self.status == 0 {
            return "accepted";
        }
        self.fault().trim_end()
    }

    /// What was put on Output.
    pub fn listing(&self) -> &str {
        str::from_utf8(self.shelf.output()).unwrap_or("no text")
    }

    /// The text of a file, empty where there is none.
    pub fn text(&self, alloc: Global, name: &str) -> Result<&str, Stop> {
        if name.is_empty() {
            return Ok("");
        }
        let name = Name::new(alloc, name.as_bytes())?;
        let bytes = self.shelf.file(&name).unwrap_or(b"");
        Ok(str::from_utf8(bytes).unwrap_or("no text"))
    }
}
