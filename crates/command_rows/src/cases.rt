//! The cases of a table of commands.

use std::alloc::{AllocError, Global};

/// A file that is there.
#[derive(Drop)]
pub struct Present {
    pub name: String,
    pub bytes: Vec<u8>,
}

/// An external unit that is connected to a device in memory, or a device in memory that is offered to OPEN.
#[derive(Drop)]
pub struct ConnectedUnit {
    /// The number of the unit, or the name under which the device is offered, and behind a blank the number of the call of the device that
    /// fails, if one does.
    pub words: String,
    /// The records of its file.
    pub records: Vec<String>,
}

/// A command with its title, and what is on the shelf.
#[derive(Drop)]
pub struct Case {
    title: String,
    input: Vec<u8>,
    present: Vec<Present>,
    prefixes: Vec<String>,
    failing: Option<String>,
    units: Vec<ConnectedUnit>,
}

/// Adds a line to bytes.
fn add_line(bytes: &mut Vec<u8>, line: &str) -> Result<(), AllocError> {
    bytes.extend_from_slice(line.as_bytes())?;
    bytes.push(b'\n')?;
    Ok(())
}

impl Case {
    /// A case without a title.
    pub fn new(alloc: Global) -> Case {
        Case {
            title: String::new(alloc),
            input: Vec::new(alloc),
            present: Vec::new(alloc),
            prefixes: Vec::new(alloc),
            failing: None,
            units: Vec::new(alloc),
        }
    }

    /// Whether a line begins a case.
    pub fn begins(line: &str) -> bool {
        line.starts_with("==") || line.starts_with("=*") || line.starts_with("=$")
    }

    /// Adds a line of the table.
    pub fn add(&mut self, alloc: Global, line: String) -> Result<(), AllocError> {
        if Case::begins(&line) {
            self.title = line;
        } else if let Some(name) = line.strip_prefix("-- ") {
            let name = String::from_str(alloc, name)?;
            let bytes = Vec::new(alloc);
            self.present.push(Present { name, bytes })?;
        } else if let Some(prefix) = line.strip_prefix("++ ") {
            self.prefixes.push(String::from_str(alloc, prefix)?)?;
        } else if let Some(number) = line.strip_prefix("!! ") {
            self.failing = Some(String::from_str(alloc, number)?);
        } else if let Some(words) = line.strip_prefix("## ") {
            let words = String::from_str(alloc, words)?;
            let records = Vec::new(alloc);
            self.units.push(ConnectedUnit { words, records })?;
        } else if let Some(record) = line.strip_prefix("#> ") {
            self.add_record(String::from_str(alloc, record)?)?;
        } else {
            self.add_card(&line)?;
        }
        Ok(())
    }

    /// Adds a record to the file of the unit that was connected last.
    fn add_record(&mut self, record: String) -> Result<(), AllocError> {
        if let Some(connected) = self.units.last_mut() {
            connected.records.push(record)?;
        }
        Ok(())
    }

    /// Adds a card of the file that was begun last.
    fn add_card(&mut self, line: &str) -> Result<(), AllocError> {
        match self.present.last_mut() {
            Some(file) => add_line(&mut file.bytes, line),
            None => add_line(&mut self.input, line),
        }
    }

    /// Whether the title was read.
    pub fn has_title(&self) -> bool {
        !self.title.is_empty()
    }

    /// The title, with the signs before it.
    pub fn title(&self) -> &str {
        self.title.as_str()
    }

    /// The words of the command line, with blanks between them, or `None` where a source is translated.
    pub fn command(&self) -> Option<&str> {
        self.title.strip_prefix("=$ ")
    }

    /// The option of a translation: `-72` where the title ends with it.
    pub fn option(&self) -> &str {
        if self.title.ends_with(" -72") {
            return "-72";
        }
        ""
    }

    /// Whether changed sources are judged too.
    pub fn is_changed(&self) -> bool {
        self.title.starts_with("=*")
    }

    /// The bytes of Input.
    pub fn input(&self) -> &[u8] {
        self.input.as_slice()
    }

    /// The files that are there.
    pub fn present(&self) -> &[Present] {
        self.present.as_slice()
    }

    /// The prefixes of which all files with a number are there.
    pub fn prefixes(&self) -> &[String] {
        self.prefixes.as_slice()
    }

    /// The number of the call of the shelf that fails.
    pub fn failing(&self) -> Option<&str> {
        match &self.failing {
            Some(number) => Some(number.as_str()),
            None => None,
        }
    }

    /// The units that are connected, and the devices that are offered.
    pub fn units(&self) -> &[ConnectedUnit] {
        self.units.as_slice()
    }
}
