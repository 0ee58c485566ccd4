//! Readers and writers that fail, answer short, or end, at each byte; and that all succeeds where they do.

use host_lines::{Found, line_at, line_before, lines_from, put_line, record_at};
use std::io;
use std::io::{ErrorKind, Read, Seek, SeekFrom, Write};
use std::process::Abort;
use std::test::Fail;

/// What a reader or a writer does at a place of its bytes.
#[derive(Clone, Copy, PartialEq, Eq)]
enum Trouble {
    /// It fails there, and at each later call.
    Fails,
    /// It ends there.
    Ends,
    /// A signal comes there, once.
    Signal,
}

/// A reader of these bytes, at most so many at once, with a trouble at a place.
#[derive(Drop)]
struct Source<'a> {
    bytes: &'a [u8],
    at: usize,
    most: usize,
    place: usize,
    trouble: Trouble,
}

impl Read for Source<'_> {
    fn read(&mut self, buf: &mut [u8]) -> io::Result<usize> {
        if self.at == self.place {
            match self.trouble {
                Trouble::Fails | Trouble::Signal => {
                    return Err(io::Error::from(ErrorKind::Other));
                }
                Trouble::Ends => return Ok(0),
            }
        }
        let end = if self.at < self.place {
            self.place
        } else {
            self.bytes.len()
        };
        let left = self.bytes.get(self.at..end).unwrap_or(b"");
        let count = left.len().min(buf.len()).min(self.most);
        buf[..count].copy_from_slice(&left[..count]);
        self.at = self.at.saturating_add(count);
        Ok(count)
    }
}

impl Seek for Source<'_> {
    fn seek(&mut self, to: SeekFrom) -> io::Result<u64> {
        match to {
            SeekFrom::Start(offset) => {
                self.at = usize::try_from(offset).unwrap_or(0);
                Ok(offset)
            }
            _ => Err(io::Error::from(ErrorKind::Other)),
        }
    }
}

/// The text of the readers: an empty line, two lines, and a last line without a line feed.
const TEXT: &[u8] = b"A\n\nBCD\nEF";

/// A reader of the text.
fn text_from(most: usize, place: usize, trouble: Trouble) -> Source<'static> {
    Source {
        bytes: TEXT,
        at: 0,
        most,
        place,
        trouble,
    }
}

/// The lines of the first bytes of the text: how many end with a line feed, and whether a last one lacks it.
fn lines_of(front: &[u8]) -> (usize, bool) {
    let ends = front.iter().filter(|byte| **byte == b'\n').count();
    (ends, !front.is_empty() && !front.ends_with(b"\n"))
}

/// Whether the first line is taken as far as the reader came, in pieces of at most so many bytes, or the failure is answered.
fn is_taken(line: &mut Vec<u8>, most: usize, place: usize) -> bool {
    let failed = line_at(&mut text_from(most, place, Trouble::Fails), 0, line);
    let ended = line_at(&mut text_from(most, place, Trouble::Ends), 0, line);
    let wanted = match place {
        0 => Found::End,
        1 => Found::LastLine,
        _ => Found::Line,
    };
    failed.is_err() == (place < 2)
        && matches!(ended, Ok(found) if found == wanted)
        && line.len() == place.min(1)
}

/// Whether it is so at each place.
fn is_taken_in_pieces(line: &mut Vec<u8>, most: usize) -> bool {
    let mut is_right = true;
    for place in 0..=TEXT.len() {
        is_right = is_right && is_taken(line, most, place);
    }
    is_right
}

#[test]
fn a_line_is_taken_in_pieces_of_any_length(rt: HostRuntime) -> Result<(), Fail> {
    let mut line = Vec::new(rt.alloc());
    for most in 1..6usize {
        assert!(rt; is_taken_in_pieces(&mut line, most), "in pieces of {most}");
    }
    Ok(())
}

/// Whether the lines are counted as far as the reader came, and a failure is answered.
fn is_counted(most: usize, place: usize) -> bool {
    let failed = lines_from(&mut text_from(most, place, Trouble::Fails), 0);
    let (ends, is_open) = lines_of(&TEXT[..place.min(TEXT.len())]);
    let lines = ends.saturating_add(usize::from(is_open));
    let ended = lines_from(&mut text_from(most, place, Trouble::Ends), 0);
    failed.is_err() && matches!(ended, Ok(count) if count == lines as u64)
}

/// Whether it is so at each place.
fn is_counted_in_pieces(most: usize) -> bool {
    let mut is_right = true;
    for place in 0..=TEXT.len() {
        is_right = is_right && is_counted(most, place);
    }
    is_right
}

#[test]
fn lines_are_counted_or_it_fails(rt: HostRuntime) -> Result<(), Fail> {
    for most in 1..6usize {
        assert!(rt; is_counted_in_pieces(most), "in pieces of {most}");
    }
    Ok(())
}

/// Where the line that ends right before an offset begins, looked for from the front.
fn start_before(bytes: &[u8], offset: usize) -> u64 {
    let front = bytes.iter().take(offset.saturating_sub(1));
    let mut start = 0u64;
    let mut behind = 0u64;
    for byte in front {
        behind = behind.saturating_add(1);
        if *byte == b'\n' {
            start = behind;
        }
    }
    start
}

/// Whether the line before an offset is found where every byte before its end could be read, and the trouble is answered elsewhere.
fn is_found_or_fails(most: usize, place: usize, offset: usize, trouble: Trouble) -> bool {
    let found = line_before(&mut text_from(most, place, trouble), offset as u64);
    let is_read = offset <= place.saturating_add(1);
    let start = start_before(TEXT, offset);
    found.is_ok() == is_read && (!is_read || matches!(found, Ok(at) if at == start))
}

/// Whether it is so before each offset.
fn is_found_before_each(most: usize, place: usize) -> bool {
    let mut is_right = true;
    for offset in 0..=TEXT.len() {
        is_right = is_right
            && is_found_or_fails(most, place, offset, Trouble::Fails)
            && is_found_or_fails(most, place, offset, Trouble::Ends);
    }
    is_right
}

/// Whether it is so with a trouble at each place.
fn is_found_in_pieces(most: usize) -> bool {
    let mut is_right = true;
    for place in 0..=TEXT.len() {
        is_right = is_right && is_found_before_each(most, place);
    }
    is_right
}

/// A search that takes the bytes that came for all that it asked for, or an end or a failure for the start of the file, succeeds
/// where the bytes before the line feed were not all read.
#[test]
fn the_line_before_is_found_or_it_fails(rt: HostRuntime) -> Result<(), Fail> {
    for most in 1..6usize {
        assert!(rt; is_found_in_pieces(most), "in pieces of {most}");
    }
    Ok(())
}

/// Where a file of three pieces has its one line feed, about the ends of the pieces in which it is read backwards.
const ENDS: [usize; 9] = [0, 1, 807, 808, 809, 4903, 4904, 4905, 8999];

/// Whether the line before an offset is found in these bytes.
fn is_found_in(bytes: &[u8], offset: usize) -> bool {
    let mut file = Source {
        bytes,
        at: 0,
        most: 1_000,
        place: bytes.len(),
        trouble: Trouble::Ends,
    };
    let start = start_before(bytes, offset);
    matches!(line_before(&mut file, offset as u64), Ok(at) if at == start)
}

/// A search that leaves out a byte between two pieces misses a line feed there; one that forgets where its piece begins, or
/// stops behind the first, answers another place.
#[test]
fn the_line_before_is_found_in_each_piece(rt: HostRuntime) -> Result<(), Fail> {
    for end in ENDS {
        let mut bytes = [b'x'; 9_001];
        if let Some(byte) = bytes.get_mut(end) {
            *byte = b'\n';
        }
        assert!(rt; is_found_in(&bytes, 9_001), "behind {end}, from the end");
        assert!(rt;
            is_found_in(&bytes, 4_905),
            "behind {end}, from the second piece"
        );
        assert!(rt;
            is_found_in(&bytes, 809),
            "behind {end}, from the first piece"
        );
    }
    Ok(())
}

/// What is written: a record behind a line without a line feed.
const WRITTEN: &[u8] = b"\nSIX BY\n";

/// A writer that takes at most so many bytes at once, and has a trouble at a place. It looks whether they are those that are to be written.
#[derive(Drop)]
struct Sink {
    count: usize,
    is_right: bool,
    most: usize,
    place: usize,
    trouble: Trouble,
    is_done: bool,
}

/// A writer that holds nothing.
fn empty_sink(most: usize, place: usize, trouble: Trouble) -> Sink {
    Sink {
        count: 0,
        is_right: true,
        most,
        place,
        trouble,
        is_done: false,
    }
}

impl Write for Sink {
    fn write(&mut self, buf: &[u8]) -> io::Result<usize> {
        if self.count == self.place && !self.is_done {
            match self.trouble {
                Trouble::Fails => return Err(io::Error::from(ErrorKind::Other)),
                Trouble::Ends => return Ok(0),
                Trouble::Signal => {
                    self.is_done = true;
                    return Err(io::Error::from(ErrorKind::Interrupted));
                }
            }
        }
        let room = if self.is_done || self.place < self.count {
            self.most
        } else {
            self.most.min(self.place.saturating_sub(self.count))
        };
        let count = buf.len().min(room);
        let wanted = WRITTEN.get(self.count..).unwrap_or(b"");
        self.is_right = self.is_right && wanted.starts_with(&buf[..count]);
        self.count = self.count.saturating_add(count);
        Ok(count)
    }

    fn flush(&mut self) -> io::Result<()> {
        Ok(())
    }
}

impl Seek for Sink {
    fn seek(&mut self, to: SeekFrom) -> io::Result<u64> {
        match to {
            SeekFrom::Start(offset) => {
                self.count = usize::try_from(offset).unwrap_or(0);
                Ok(offset)
            }
            _ => Err(io::Error::from(ErrorKind::Other)),
        }
    }
}

/// Puts a record behind a line without a line feed, at the start of a file or into a stream, and says whether that succeeded.
fn put(is_file: bool, writer: &mut Sink) -> bool {
    if is_file {
        record_at(writer, 0, true, b"SIX BY").is_ok()
    } else {
        put_line(writer, b"\nSIX BY").is_ok()
    }
}

/// Puts the record where a trouble comes at a place, and says whether a whole record or a front and a failure came of it.
fn is_whole_or_fails(is_file: bool, most: usize, place: usize, trouble: Trouble) -> bool {
    let mut writer = empty_sink(most, place, trouble);
    let is_whole = put(is_file, &mut writer);
    let wanted = place >= 8 || trouble == Trouble::Signal;
    let front = if wanted { 8 } else { place };
    is_whole == wanted && writer.count == front && writer.is_right
}

/// Whether it is so at each place, for each trouble.
fn is_right_at_each(is_file: bool, most: usize) -> bool {
    let mut is_right = true;
    for place in 0..9usize {
        is_right = is_right
            && is_whole_or_fails(is_file, most, place, Trouble::Fails)
            && is_whole_or_fails(is_file, most, place, Trouble::Ends)
            && is_whole_or_fails(is_file, most, place, Trouble::Signal);
    }
    is_right
}

#[test]
fn bytes_go_out_whole_or_a_front_and_a_failure(rt: HostRuntime) -> Result<(), Fail> {
    for most in 1..9usize {
        assert!(rt; is_right_at_each(false, most), "a stream, {most} at once");
        assert!(rt; is_right_at_each(true, most), "a file, {most} at once");
    }
    Ok(())
}
