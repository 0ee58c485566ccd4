//! Streams that fail in their midst, as devices.

use f2c_outside::devices::{Device, Got};
use f2c_outside::host_devices::{HostInput, HostOutput};
use std::io;
use std::io::{ErrorKind, Read, Write};
use std::process::Abort;
use std::test::Fail;

/// A writer that takes so many bytes, at most three at once, and then fails; it may also fail where it is flushed.
#[derive(Drop)]
struct ShortWriter {
    room: usize,
    is_flushing: bool,
}

impl Write for ShortWriter {
    fn write(&mut self, buf: &[u8]) -> io::Result<usize> {
        if self.room == 0 && !buf.is_empty() {
            return Err(io::Error::from(ErrorKind::Other));
        }
        let count = buf.len().min(3).min(self.room);
        self.room = self.room.saturating_sub(count);
        Ok(count)
    }

    fn flush(&mut self) -> io::Result<()> {
        if self.is_flushing {
            return Ok(());
        }
        Err(io::Error::from(ErrorKind::Other))
    }
}

#[test]
fn a_record_goes_out_whole_or_fails(rt: HostRuntime) -> Result<(), Fail> {
    for room in 0..8usize {
        let is_flushing = room < 4;
        let mut output = HostOutput::new(ShortWriter { room, is_flushing });
        assert_eq!(rt;
            output.write_record(b"SIX BY").is_ok(),
            room == 7,
            "room {room}"
        );
        assert_eq!(rt; output.finish().is_ok(), is_flushing, "room {room}");
    }
    Ok(())
}

/// A reader that gives one byte at a time, and fails before the one at this place.
#[derive(Drop)]
struct FailingReader {
    at: usize,
    failing: usize,
}

impl Read for FailingReader {
    fn read(&mut self, buf: &mut [u8]) -> io::Result<usize> {
        if self.at == self.failing {
            return Err(io::Error::from(ErrorKind::Other));
        }
        match (b"A\nBC".get(self.at), buf.first_mut()) {
            (Some(byte), Some(place)) => {
                *place = *byte;
                self.at = self.at.saturating_add(1);
                Ok(1)
            }
            _ => Ok(0),
        }
    }
}

#[test]
fn a_read_error_is_no_end(rt: HostRuntime) -> Result<(), Fail> {
    for failing in 0..6usize {
        let mut input = HostInput::new(rt.alloc(), FailingReader { at: 0, failing });
        let mut into = [0u8; 4];
        let first = input.read_record(&mut into);
        assert_eq!(rt; first == Got::Line(1), failing > 1, "first, {failing}");
        assert_eq!(rt; first == Got::Failed, failing < 2, "first, {failing}");
        if failing > 1 {
            let second = input.read_record(&mut into);
            assert_eq!(rt; second == Got::Line(2), failing > 4, "second, {failing}");
            assert_eq!(rt; second == Got::Failed, failing < 5, "second, {failing}");
        }
    }
    Ok(())
}
