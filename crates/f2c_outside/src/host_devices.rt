//! Devices over the real streams. No clause tells what these hold: they are the trusted edge.

ghost use Rattle.std.specs.Prelude.{◌≡◌, ◌≤◌, false};
ghost use Rattle.f2c_outside.specs.Shelf.{Rose};
ghost use Rattle.f2c_outside.specs.Device.{one_more};
ghost use Rattle.f2c_outside.specs.HostState.{untold_device};

use crate::devices::{Device, DeviceFault, Got};
use crate::memory_device::give;
use host_lines::{Found, put_line, read_line};
use std::alloc::Global;
use std::io::{Read, Write};

/// A stream that is written, as a device: each record goes out as its bytes and an LF. It fails at a
/// read or a move, and `finish` flushes the stream.
#[derive(Drop)]
pub struct HostOutput<W: Write + Drop> {
    writer: W,
    records: u64,
    finished: bool,
    tally: Tally,
}

impl<W: Write + Drop> HostOutput<W> {
    /// A device over a stream, as standard output. No record has been written, and no call has failed.
    pub fn new(writer: W) -> HostOutput<W>
        ensures { untold_device result.records result.finished result.tally.calls result.tally.faults ≡ untold_device 0 false 0 0 }
    {
        HostOutput {
            writer,
            records: 0,
            finished: false,
            tally: Tally::new(),
        }
    }
}

impl<W: Write + Drop> Device for HostOutput<W> {
    ghost device_state = { λ d. untold_device d.records d.finished d.tally.calls d.tally.faults };

    fn read_record(&mut self, _into: &mut [u8]) -> Got {
        self.tally.call();
        let _fault = self.tally.fail();
        Got::Failed
    }

    fn write_record(&mut self, bytes: &[u8]) -> Result<(), DeviceFault> {
        self.tally.call();
        self.finished = false;
        if self.records < u64::MAX && put_line(&mut self.writer, bytes).is_ok() {
            self.records += 1;
            return Ok(());
        }
        Err(self.tally.fail())
    }

    fn back(&mut self) -> Result<(), DeviceFault> {
        self.tally.call();
        Err(self.tally.fail())
    }

    fn rewind(&mut self) -> Result<(), DeviceFault> {
        self.tally.call();
        Err(self.tally.fail())
    }

    fn end_file(&mut self) -> Result<(), DeviceFault> {
        self.tally.call();
        self.finished = false;
        Ok(())
    }

    fn finish(&mut self) -> Result<u64, DeviceFault> {
        self.tally.call();
        if self.writer.flush().is_err() {
            self.finished = false;
            return Err(self.tally.fail());
        }
        self.finished = true;
        Ok(self.records)
    }
}

/// A stream that is read, as a device: each line is a record, without its LF. It fails at a write or a
/// move, and `finish` answers how many records have been read.
///
/// It reads one byte at a time, so the stream is to be buffered.
#[derive(Drop)]
pub struct HostInput<F: Read + Drop> {
    reader: F,
    line: Vec<u8>,
    records: u64,
    finished: bool,
    tally: Tally,
}

impl<F: Read + Drop> HostInput<F> {
    /// A device over a stream, as standard input. No record has been read, and no call has failed.
    pub fn new(alloc: Global, reader: F) -> HostInput<F>
        ensures { untold_device result.records result.finished result.tally.calls result.tally.faults ≡ untold_device 0 false 0 0 }
    {
        HostInput {
            reader,
            line: Vec::new(alloc),
            records: 0,
            finished: false,
            tally: Tally::new(),
        }
    }
}

impl<F: Read + Drop> Device for HostInput<F> {
    ghost device_state = { λ d. untold_device d.records d.finished d.tally.calls d.tally.faults };

    fn read_record(&mut self, into: &mut [u8]) -> Got {
        self.tally.call();
        if self.records < u64::MAX {
            match read_line(&mut self.reader, &mut self.line) {
                Ok(Found::End) => return Got::End,
                Ok(Found::Line | Found::LastLine) => {
                    self.records += 1;
                    return give(self.line.as_slice(), into);
                }
                Err(_) => {}
            }
        }
        let _fault = self.tally.fail();
        Got::Failed
    }

    fn write_record(&mut self, _bytes: &[u8]) -> Result<(), DeviceFault> {
        self.tally.call();
        Err(self.tally.fail())
    }

    fn back(&mut self) -> Result<(), DeviceFault> {
        self.tally.call();
        Err(self.tally.fail())
    }

    fn rewind(&mut self) -> Result<(), DeviceFault> {
        self.tally.call();
        Err(self.tally.fail())
    }

    fn end_file(&mut self) -> Result<(), DeviceFault> {
        self.tally.call();
        Err(self.tally.fail())
    }

    fn finish(&mut self) -> Result<u64, DeviceFault> {
        self.tally.call();
        self.finished = true;
        Ok(self.records)
    }
}

/// How many calls of a device there have been, and how many of them have failed. A count at the end of
/// its type stays there.
#[derive(Drop)]
pub(crate) struct Tally {
    calls: u64,
    faults: u64,
}

impl Tally {
    /// No call has been made.
    pub(crate) fn new() -> Tally
        ensures calls { result.calls ≡ 0 }
        ensures faults { result.faults ≡ 0 }
    {
        Tally {
            calls: 0,
            faults: 0,
        }
    }

    /// Counts a call.
    pub(crate) fn call(&mut self)
        ensures counted { self.new.calls ≡ one_more self.old.calls }
        ensures faults { self.new.faults ≡ self.old.faults }
    {
        self.calls = self.calls.saturating_add(1);
    }

    /// Counts a fault.
    pub(crate) fn fail(&mut self) -> DeviceFault
        ensures calls { self.new.calls ≡ self.old.calls }
        ensures later { self.old.faults ≤ self.new.faults }
        ensures rose { Rose self.old.faults self.new.faults }
    {
        self.faults = self.faults.saturating_add(1);
        DeviceFault::Failed
    }
}
