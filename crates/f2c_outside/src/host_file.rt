//! A device over a real file. No clause tells what the file holds: it is the trusted edge.

ghost use Rattle.std.specs.Prelude.{◌≡◌, ◌≤◌, ◌-◌, ◌^◌, min, false, is_some, IfOk, OnOk, IsSome, IsSomeAnd, IsTrue};
ghost use Rattle.host_lines.specs.Lines.{lines_in, HasFirst, FoundBack, ReadsAt, WritesAt, record_text};
ghost use Rattle.f2c_outside.specs.HostState.{untold_device, BothOpen, IsOver};
ghost use Rattle.f2c_outside.specs.LineEnds.{behind_line};

use crate::devices::{Device, DeviceFault, Got};
use crate::host_devices::Tally;
use crate::memory_device::give;
use crate::texts::Name;
use host_lines::{Found, line_at, line_before, lines_from, record_at};
use std::alloc::Global;
use std::fs;
use std::fs::{OpenFile, OpenOptions};
use std::io::{Read, Seek, Write};
use std::rt::Files;

/// A file as a device: each line is a record, without its LF. It is opened at the first call, and made
/// where it is not there. A write or an end of file cuts off the records from the position on.
///
/// `back` reads the file backwards to the start of a line, and `finish` reads it from the position on.
#[derive(Drop)]
pub struct HostFile<R: Files + Drop> {
    rt: R,
    name: Name,
    file: Option<R::File>,
    line: Vec<u8>,
    offset: u64,
    lacks_end: bool,
    records: u64,
    finished: bool,
    tally: Tally,
}

impl<R: Files + Drop> HostFile<R> {
    /// A device over the file of this name, before its first record. No call has failed.
    pub fn new(alloc: Global, rt: R, name: Name) -> HostFile<R>
        ensures over { IsOver name result }
        ensures fresh { untold_device result.records result.finished result.tally.calls result.tally.faults ≡ untold_device 0 false 0 0 }
    {
        HostFile {
            rt,
            name,
            file: None,
            line: Vec::new(alloc),
            offset: 0,
            lacks_end: false,
            records: 0,
            finished: false,
            tally: Tally::new(),
        }
    }
}

impl<R: Files + Drop> Device for HostFile<R> {
    ghost device_state = { λ d. untold_device d.records d.finished d.tally.calls d.tally.faults };

    fn read_record(&mut self, into: &mut [u8]) -> Got {
        self.tally.call();
        let _open = open_if_needed(&self.rt, &self.name, &mut self.file);
        match next_line(&mut self.file, self.offset, &mut self.line) {
            Ok(Found::End) => Got::End,
            Ok(found) if self.records < u64::MAX => {
                let ended = found == Found::Line;
                self.records += 1;
                self.offset = after_line(self.offset, self.line.len(), ended);
                self.lacks_end = !ended;
                give(self.line.as_slice(), into)
            }
            _ => {
                let _fault = self.tally.fail();
                Got::Failed
            }
        }
    }

    fn write_record(&mut self, bytes: &[u8]) -> Result<(), DeviceFault> {
        self.tally.call();
        self.finished = false;
        let start = after_line(self.offset, 0, self.lacks_end);
        let _open = open_if_needed(&self.rt, &self.name, &mut self.file);
        if self.records < u64::MAX
            && write_line(&mut self.file, self.offset, self.lacks_end, bytes).is_ok()
        {
            self.records += 1;
            self.offset = after_line(start, bytes.len(), true);
            self.lacks_end = false;
            return Ok(());
        }
        Err(self.tally.fail())
    }

    fn back(&mut self) -> Result<(), DeviceFault> {
        self.tally.call();
        if !open_if_needed(&self.rt, &self.name, &mut self.file) {
            return Err(self.tally.fail());
        }
        if self.records == 0 {
            return Ok(());
        }
        match line_start(&mut self.file, self.offset) {
            Ok(start) => {
                self.offset = start;
                self.lacks_end = false;
                self.records -= 1;
                Ok(())
            }
            Err(_) => Err(self.tally.fail()),
        }
    }

    fn rewind(&mut self) -> Result<(), DeviceFault> {
        self.tally.call();
        if !open_if_needed(&self.rt, &self.name, &mut self.file) {
            return Err(self.tally.fail());
        }
        self.offset = 0;
        self.lacks_end = false;
        self.records = 0;
        Ok(())
    }

    fn end_file(&mut self) -> Result<(), DeviceFault> {
        self.tally.call();
        self.finished = false;
        if open_if_needed(&self.rt, &self.name, &mut self.file) && cut(&self.file, self.offset) {
            return Ok(());
        }
        Err(self.tally.fail())
    }

    fn finish(&mut self) -> Result<u64, DeviceFault> {
        self.tally.call();
        let _open = open_if_needed(&self.rt, &self.name, &mut self.file);
        match lines_left(&mut self.file, self.offset) {
            Ok(more) if more <= u64::MAX - self.records => {
                self.finished = true;
                Ok(self.records + more)
            }
            _ => {
                self.finished = false;
                Err(self.tally.fail())
            }
        }
    }
}

/// The byte behind a line.
fn after_line(offset: u64, length: usize, ended: bool) -> u64
    ensures { result ≡ behind_line offset length ended }
{
    offset
        .saturating_add(length as u64)
        .saturating_add(u64::from(ended))
}

/// Opens the file where it is not open, to be read alone where it cannot be written, and says whether it is open. A file that is
/// open stays as it is.
fn open_if_needed<R: Files>(rt: &R, name: &Name, file: &mut Option<R::File>) -> bool
    ensures open { result ≡ is_some file.new }
    ensures kept { IsSome file.old → file.new ≡ file.old }
{
    if file.is_some() {
        return true;
    }
    let Ok(path) = str::from_utf8(name.as_bytes()) else {
        return false;
    };
    let mut how = OpenOptions::new();
    how.read(true).write(true).create(true);
    let opened = match how.open(rt, path) {
        Ok(opened) => Some(opened),
        Err(_) => fs::open(rt, path).ok(),
    };
    *file = opened;
    file.is_some()
}

/// Cuts the file off at an offset, and says whether that succeeded. A file that is not open is a fault.
fn cut<F: OpenFile>(file: &Option<F>, offset: u64) -> bool
    ensures { IsTrue result → IsSome file.now }
{
    match file {
        Some(file) => file.set_len(offset).is_ok(),
        None => false,
    }
}

/// Reads the line at an offset, without its LF. A file that is not open is a fault.
fn next_line<F: Read + Seek>(
    file: &mut Option<F>,
    offset: u64,
    line: &mut Vec<u8>,
) -> Result<Found, DeviceFault>
    ensures { IfOk result (λ found. IsSomeAnd file.old (λ there. ReadsAt F.stream_position F.stream_bytes F.remaining offset there (HasFirst found line.new.items))) }
{
    let Some(file) = file else {
        return Err(DeviceFault::Failed);
    };
    match line_at(file, offset, line) {
        Ok(found) => Ok(found),
        Err(_) => Err(DeviceFault::Failed),
    }
}

/// How many lines there are from an offset on. A file that is not open is a fault.
fn lines_left<F: Read + Seek>(file: &mut Option<F>, offset: u64) -> Result<u64, DeviceFault>
    ensures { IfOk result (λ lines. IsSomeAnd file.old (λ there. ReadsAt F.stream_position F.stream_bytes F.remaining offset there
        (λ bytes. lines ≡ min (lines_in bytes) (2 ^ 64 - 1)))) }
{
    let Some(file) = file else {
        return Err(DeviceFault::Failed);
    };
    match lines_from(file, offset) {
        Ok(lines) => Ok(lines),
        Err(_) => Err(DeviceFault::Failed),
    }
}

/// Cuts the file off at an offset, and writes a record there, behind an LF where one is lacking. A file that is not open is
/// a fault.
fn write_line<F: Write + Seek + OpenFile>(
    file: &mut Option<F>,
    offset: u64,
    lacks_end: bool,
    bytes: &[u8],
) -> Result<(), DeviceFault>
    ensures { OnOk result (BothOpen file.old file.new
        (λ before after. WritesAt F.stream_position F.stream_bytes F.contents offset before after (record_text lacks_end bytes.now))) }
{
    if !cut(file, offset) {
        return Err(DeviceFault::Failed);
    }
    let Some(file) = file else {
        return Err(DeviceFault::Failed);
    };
    match record_at(file, offset, lacks_end, bytes) {
        Ok(()) => Ok(()),
        Err(_) => Err(DeviceFault::Failed),
    }
}

/// Where the line before an offset begins. A file that is not open is a fault.
fn line_start<F: Read + Seek>(file: &mut Option<F>, offset: u64) -> Result<u64, DeviceFault>
    ensures found { IfOk result (λ start. BothOpen file.old file.new
        (λ before after. FoundBack F.stream_position F.stream_bytes F.remaining offset before after start)) }
    ensures within { IfOk result (λ start. start ≤ offset) }
{
    let Some(file) = file else {
        return Err(DeviceFault::Failed);
    };
    match line_before(file, offset) {
        Ok(start) => Ok(start),
        Err(_) => Err(DeviceFault::Failed),
    }
}
