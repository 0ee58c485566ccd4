//! A runtime whose file and streams fail, or take and give less than is asked for, at each byte.

ghost use Rattle.std.specs.Prelude.{◌≤◌, length, IfOk};

use std::alloc::Allocator;
use std::cell::Cell;
use std::fmt::Display;
use std::fs::{Metadata, OpenFile, OpenOptions};
use std::io;
use std::io::{BufRead, Empty, ErrorKind, Lines, Read, Seek, SeekFrom, Write};
use std::rt::Files;

/// The text that goes through the streams.
pub(crate) const TEXT: &[u8] = b"A\0\nBC";

/// What a stream lets pass.
#[derive(Clone, Copy)]
pub(crate) struct Limits {
    /// So many bytes at once, at most.
    pub(crate) most: usize,
    /// So many bytes together.
    pub(crate) room: usize,
    /// Whether it fails behind them, or takes none and ends.
    pub(crate) is_failing: bool,
    /// Whether it can be flushed.
    pub(crate) is_flushing: bool,
}

impl Limits {
    /// How many of the bytes that are asked for pass, where so many have passed.
    pub(crate) fn part(self, passed: usize, asked: usize) -> usize
        ensures { result ≤ asked }
    {
        asked.min(self.most).min(self.room.saturating_sub(passed))
    }
}

/// A stream through which the bytes of the text go, in their order. It fails at other bytes.
#[derive(Clone, Copy)]
pub(crate) struct Stream<'a> {
    /// How many bytes have passed.
    pub(crate) passed: &'a Cell<usize>,
    /// What it lets pass.
    pub(crate) limits: Limits,
}

impl Stream<'_> {
    /// Lets bytes pass where so many are asked for.
    fn pass(&self, asked: usize) -> io::Result<&'static [u8]>
        ensures { IfOk result (λ next. length next.now ≤ asked) }
    {
        let passed = self.passed.get();
        let count = self.limits.part(passed, asked);
        if count == 0 && asked > 0 && self.limits.is_failing {
            return Err(io::Error::from(ErrorKind::Other));
        }
        let left = TEXT.get(passed..).unwrap_or(b"");
        let next = left.get(..count).unwrap_or(b"");
        self.passed.set(passed.saturating_add(next.len()));
        Ok(next)
    }

    /// Takes the first of these bytes.
    fn take_some(&self, bytes: &[u8]) -> io::Result<usize>
        ensures { IfOk result (λ n. n ≤ length bytes.now) }
    {
        let next = self.pass(bytes.len())?;
        if !bytes.starts_with(next) {
            return Err(io::Error::from(ErrorKind::InvalidData));
        }
        Ok(next.len())
    }
}

impl Read for Stream<'_> {
    fn read(&mut self, buf: &mut [u8]) -> io::Result<usize> {
        let next = self.pass(buf.len())?;
        buf[..next.len()].copy_from_slice(next);
        Ok(next.len())
    }
}

impl Write for Stream<'_> {
    fn write(&mut self, buf: &[u8]) -> io::Result<usize> {
        self.take_some(buf)
    }

    fn flush(&mut self) -> io::Result<()> {
        if self.limits.is_flushing {
            return Ok(());
        }
        Err(io::Error::from(ErrorKind::Other))
    }
}

impl Seek for Stream<'_> {
    fn seek(&mut self, _to: SeekFrom) -> io::Result<u64> {
        unsupported()
    }
}

impl OpenFile for Stream<'_> {
    fn metadata(&self) -> io::Result<Metadata> {
        unsupported()
    }

    fn set_len(&self, _size: u64) -> io::Result<()> {
        unsupported()
    }

    fn sync_all(&self) -> io::Result<()> {
        unsupported()
    }

    fn sync_data(&self) -> io::Result<()> {
        unsupported()
    }
}

impl Print for Stream<'_> {
    fn print<D: Display + Drop>(&self, _value: D) -> io::Result<()> {
        unsupported()
    }

    fn println<D: Display + Drop>(&self, _value: D) -> io::Result<()> {
        unsupported()
    }

    fn write_all(&self, bytes: &[u8]) -> io::Result<()> {
        if self.take_some(bytes)? == bytes.len() {
            return Ok(());
        }
        Err(io::Error::from(ErrorKind::WriteZero))
    }

    fn write_some(&self, bytes: &[u8]) -> io::Result<usize> {
        self.take_some(bytes)
    }
}

/// A runtime with one file, which is there under each name, and a standard output. Its standard input is empty.
#[derive(Clone, Copy)]
pub(crate) struct Host<'a> {
    /// The file.
    pub(crate) file: Stream<'a>,
    /// The standard output.
    pub(crate) output: Stream<'a>,
    /// The error that comes where a file is opened or asked for, if any.
    pub(crate) refusal: Option<ErrorKind>,
}

impl<'a> Files for Host<'a> {
    type File = Stream<'a>;

    type Dir = Empty;

    fn open_file(&self, _how: &OpenOptions, _path: &str) -> io::Result<Stream<'a>> {
        match self.refusal {
            Some(kind) => Err(io::Error::from(kind)),
            None => Ok(self.file),
        }
    }

    fn open_dir(&self, _path: &str) -> io::Result<Empty> {
        unsupported()
    }

    fn metadata(&self, _path: &str) -> io::Result<Metadata> {
        match self.refusal {
            Some(kind) => Err(io::Error::from(kind)),
            None => Ok(Metadata::of_file(0)),
        }
    }

    fn symlink_metadata(&self, _path: &str) -> io::Result<Metadata> {
        unsupported()
    }

    fn copy(&self, _from: &str, _to: &str) -> io::Result<u64> {
        unsupported()
    }

    fn rename(&self, _from: &str, _to: &str) -> io::Result<()> {
        unsupported()
    }

    fn remove_file(&self, _path: &str) -> io::Result<()> {
        unsupported()
    }

    fn create_dir(&self, _path: &str) -> io::Result<()> {
        unsupported()
    }

    fn remove_dir(&self, _path: &str) -> io::Result<()> {
        unsupported()
    }

    fn remove_dir_all<B: Allocator>(&self, _alloc: B, _path: &str) -> io::Result<()> {
        unsupported()
    }
}

impl Input for Host<'_> {
    type Reader = Empty;

    fn read_line<A: Allocator + Clone>(&self, buf: &mut String<A>) -> io::Result<usize> {
        io::empty().read_line(buf)
    }

    fn lines<A: Allocator>(&self, alloc: A) -> Lines<Empty, A> {
        io::empty().lines(alloc)
    }

    fn reader(&self) -> Empty {
        io::empty()
    }
}

impl Print for Host<'_> {
    fn print<D: Display + Drop>(&self, value: D) -> io::Result<()> {
        self.output.print(value)
    }

    fn println<D: Display + Drop>(&self, value: D) -> io::Result<()> {
        self.output.println(value)
    }

    fn write_all(&self, bytes: &[u8]) -> io::Result<()> {
        self.output.write_all(bytes)
    }

    fn write_some(&self, bytes: &[u8]) -> io::Result<usize> {
        self.output.write_some(bytes)
    }
}

/// The answer to a call that no shelf makes.
fn unsupported<T>() -> io::Result<T> {
    Err(io::Error::from(ErrorKind::Unsupported))
}
