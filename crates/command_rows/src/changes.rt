//! A source with small changes.

use crate::Stop;
use crate::runs::Run;
use f2c_outside::memory_shelf::MemoryShelf;
use std::alloc::{AllocError, Global};
use std::fmt::{self, Display, Formatter, Write};

/// How many changed sources were accepted, how many were refused, and how many gave something else.
#[derive(Clone, Copy, Debug, PartialEq, Eq)]
pub struct Counts {
    accepted: u32,
    refused: u32,
    other: u32,
}

impl Display for Counts {
    fn fmt<W: Write>(&self, f: &mut Formatter<W>) -> fmt::Result {
        write!(
            f,
            "changed: {} accepted, {} refused, {} other",
            self.accepted, self.refused, self.other
        )
    }
}

impl Counts {
    /// Counts what a source gives.
    fn count(&mut self, alloc: Global, input: &[u8]) -> Result<(), Stop> {
        let mut shelf = MemoryShelf::new(alloc)?;
        shelf.set_input(input)?;
        let count = match Run::over(alloc, shelf, "")?.status() {
            0 => &mut self.accepted,
            1 => &mut self.refused,
            _ => &mut self.other,
        };
        *count = count.saturating_add(1);
        Ok(())
    }
}

/// Bytes with others in the place of so many.
fn replaced(
    alloc: Global,
    input: &[u8],
    at: usize,
    len: usize,
    by: &[u8],
) -> Result<Vec<u8>, AllocError> {
    let mut bytes = Vec::new(alloc);
    for c in input.iter().take(at) {
        bytes.push(*c)?;
    }
    bytes.extend_from_slice(by)?;
    for c in input.iter().skip(at).skip(len) {
        bytes.push(*c)?;
    }
    Ok(bytes)
}

/// Judges each front of a source.
fn judge_fronts(alloc: Global, counts: &mut Counts, input: &[u8]) -> Result<(), Stop> {
    for at in 0..input.len() {
        let front = replaced(alloc, input, at, input.len(), b"")?;
        counts.count(alloc, front.as_slice())?;
    }
    Ok(())
}

/// Judges a source without one of its lines and with one of them twice, for each of its lines.
fn judge_lines(alloc: Global, counts: &mut Counts, input: &[u8]) -> Result<(), Stop> {
    let mut at: usize = 0;
    for line in input.split_inclusive(|c| *c == b'\n') {
        let without = replaced(alloc, input, at, line.len(), b"")?;
        counts.count(alloc, without.as_slice())?;
        let twice = replaced(alloc, input, at, 0, line)?;
        counts.count(alloc, twice.as_slice())?;
        at = at.saturating_add(line.len());
    }
    Ok(())
}

/// The bytes that each byte is changed to; where it is one of them, to the last one.
const OTHERS: [u8; 5] = [b'A', b'7', b' ', b'(', b'\''];

/// Judges a source with one byte changed to five others.
fn judge_byte(
    alloc: Global,
    counts: &mut Counts,
    input: &[u8],
    at: usize,
    byte: u8,
) -> Result<(), Stop> {
    for other in OTHERS {
        let by = if other == byte { b'=' } else { other };
        let changed = replaced(alloc, input, at, 1, &[by])?;
        counts.count(alloc, changed.as_slice())?;
    }
    Ok(())
}

/// Judges a source with each byte changed.
fn judge_bytes(alloc: Global, counts: &mut Counts, input: &[u8]) -> Result<(), Stop> {
    for (at, byte) in input.iter().enumerate() {
        judge_byte(alloc, counts, input, at, *byte)?;
    }
    Ok(())
}

/// Judges each changed source.
pub fn judge_changes(alloc: Global, input: &[u8]) -> Result<Counts, Stop> {
    let mut counts = Counts {
        accepted: 0,
        refused: 0,
        other: 0,
    };
    judge_fronts(alloc, &mut counts, input)?;
    judge_lines(alloc, &mut counts, input)?;
    judge_bytes(alloc, &mut counts, input)?;
    Ok(counts)
}
