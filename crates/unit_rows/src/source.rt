//! The lines of a source.

use std::alloc::{AllocError, Global};

/// The lines of a source, and its bytes.
#[derive(Drop)]
pub struct Source {
    lines: Vec<String>,
    bytes: Vec<u8>,
}

impl Source {
    /// A source without lines.
    pub fn new(alloc: Global) -> Source {
        Source {
            lines: Vec::new(alloc),
            bytes: Vec::new(alloc),
        }
    }

    /// Adds a line.
    pub fn add(&mut self, line: String) -> Result<(), AllocError> {
        self.bytes.extend_from_slice(line.as_bytes())?;
        self.bytes.push(b'\n')?;
        self.lines.push(line)?;
        Ok(())
    }

    /// The bytes of all lines.
    pub fn bytes(&self) -> &[u8] {
        self.bytes.as_slice()
    }

    /// The line that is a card, by the number of the card, from 1.
    pub fn card(&self, card: u32) -> &str {
        match self.lines.get((card as usize).saturating_sub(1)) {
            Some(line) => line.as_str(),
            None => "",
        }
    }

    /// The words of the comment before a card.
    pub fn title(&self, card: u32) -> &str {
        self.card(card.saturating_sub(1))
            .strip_prefix("C ")
            .unwrap_or("no title")
    }
}
