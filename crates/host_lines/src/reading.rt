//! Lines that are read.

ghost use Rattle.std.specs.Prelude.{◌≡◌, ◌<◌, ◌≤◌, [], length, min, ◌-◌, ◌^◌, IfOk, OnOk, OnErr, IfSome, bytes_eq, if◌then◌else◌};
ghost use Rattle.std.specs.Io.KnownBytes.{Keeps};
ghost use Rattle.host_lines.specs.Lines.{lines_in, AddsLine, HasRead, HasFirst, LosesPart, GaveByte, ReadsAt, IsLastEnd, Moved, TakesAt, FoundBack};

use crate::ends::{ends_in, first_end, inside_after, last_end};
use std::io;
use std::io::{ErrorKind, Read, Seek, SeekFrom};

/// How many bytes are read at once.
pub(crate) const CHUNK: usize = 4096;

/// The most turns of a loop over a stream; a further turn is an error.
pub(crate) const MOST_TURNS: usize = 67_108_865;

/// What was found where a line was looked for.
#[derive(Clone, Copy, Debug, PartialEq, Eq)]
pub enum Found {
    /// A line with its line feed.
    Line,
    /// A last line, which lacks its line feed and has a byte at least.
    LastLine,
    /// The end of the stream.
    End,
}

/// Reads a byte, or `None` at the end.
fn next_byte<F: Read>(reader: &mut F) -> io::Result<Option<u8>>
    ensures ok { IfOk result (GaveByte (F.remaining reader.old) (F.remaining reader.new)) }
    ensures err { OnErr result (Keeps (F.remaining reader.old) (F.remaining reader.new)) }
{
    let mut byte = [0u8; 1];
    match reader.read(&mut byte) {
        Ok(0) => Ok(None),
        Ok(_) => Ok(Some(byte[0])),
        Err(error) => Err(error),
    }
}

/// What was found at the end of the stream, behind the bytes of a line.
fn found_at_end(line: &[u8]) -> Found
    ensures { result ≡ (if bytes_eq line.now [] then Found.End else Found.LastLine) }
{
    if line.is_empty() {
        Found::End
    } else {
        Found::LastLine
    }
}

/// Reads a line without its line feed, byte by byte: no byte behind it is taken from the reader. An error of the reader is
/// answered, and then no line feed was passed.
pub fn read_line<F: Read>(reader: &mut F, line: &mut Vec<u8>) -> io::Result<Found>
    ensures ok { IfOk result (HasRead (F.remaining reader.old) (F.remaining reader.new) line.new.items) }
    ensures err { OnErr result (LosesPart (F.remaining reader.old) (F.remaining reader.new)) }
{
    line.clear();
    for _ in 0..MOST_TURNS {
        match next_byte(reader)? {
            None => return Ok(found_at_end(line.as_slice())),
            Some(b'\n') => return Ok(Found::Line),
            Some(byte) => line.push(byte)?,
        }
    }
    Err(too_long())
}

/// Reads the first line of what is left without its line feed, in large pieces: bytes behind it may be taken too.
pub(crate) fn take_line<F: Read>(reader: &mut F, line: &mut Vec<u8>) -> io::Result<Found>
    ensures { IfOk result (λ found. IfSome (F.remaining reader.old) (HasFirst found line.new.items)) }
{
    line.clear();
    let mut chunk = [0u8; CHUNK];
    for _ in 0..MOST_TURNS {
        let count = reader.read(&mut chunk)?;
        if count == 0 {
            return Ok(found_at_end(line.as_slice()));
        }
        if add_line(&chunk[..count], line)? {
            return Ok(Found::Line);
        }
    }
    Err(too_long())
}

/// Puts the bytes before the first line feed behind a line, and says whether there is one.
fn add_line(bytes: &[u8], line: &mut Vec<u8>) -> io::Result<bool>
    ensures ok { IfOk result (AddsLine bytes.now line.old.items line.new.items) }
    ensures err { OnErr result (line.new.items ≡ line.old.items) }
{
    match first_end(bytes) {
        Some(end) => {
            line.extend_from_slice(&bytes[..end])?;
            Ok(true)
        }
        None => {
            line.extend_from_slice(bytes)?;
            Ok(false)
        }
    }
}

/// How many lines are left. The count stays at the end of its type.
pub(crate) fn count_lines<F: Read>(reader: &mut F) -> io::Result<u64>
    ensures { IfOk result (λ lines. IfSome (F.remaining reader.old) (λ bytes. lines ≡ min (lines_in bytes) (2 ^ 64 - 1))) }
{
    let mut chunk = [0u8; CHUNK];
    let mut lines = 0u64;
    let mut is_inside = false;
    for _ in 0..MOST_TURNS {
        let count = reader.read(&mut chunk)?;
        if count == 0 {
            return Ok(lines.saturating_add(u64::from(is_inside)));
        }
        lines = lines.saturating_add(ends_in(&chunk[..count]) as u64);
        is_inside = inside_after(is_inside, &chunk[..count]);
    }
    Err(too_long())
}

/// Moves to an offset, and reads the line there without its line feed. Behind the last byte it finds the end.
pub fn line_at<F: Read + Seek>(file: &mut F, offset: u64, line: &mut Vec<u8>) -> io::Result<Found>
    ensures { IfOk result (λ found. ReadsAt F.stream_position F.stream_bytes F.remaining offset file.old (HasFirst found line.new.items)) }
{
    file.seek(SeekFrom::Start(offset))?;
    take_line(file, line)
}

/// Moves to an offset, and counts the lines from there on. The count stays at the end of its type.
pub fn lines_from<F: Read + Seek>(file: &mut F, offset: u64) -> io::Result<u64>
    ensures { IfOk result (λ lines. ReadsAt F.stream_position F.stream_bytes F.remaining offset file.old
        (λ bytes. lines ≡ min (lines_in bytes) (2 ^ 64 - 1))) }
{
    file.seek(SeekFrom::Start(offset))?;
    count_lines(file)
}

/// Moves to an offset.
pub(crate) fn move_to<F: Seek>(file: &mut F, offset: u64) -> io::Result<()>
    ensures ok { OnOk result (Moved F.stream_position F.stream_bytes offset file.old file.new) }
    ensures err { OnErr result (Keeps (F.stream_bytes file.old) (F.stream_bytes file.new)) }
{
    file.seek(SeekFrom::Start(offset))?;
    Ok(())
}

/// Moves to an offset, and fills a piece from there on. A file that has fewer bytes is an error.
fn take_piece<F: Read + Seek>(file: &mut F, offset: u64, piece: &mut [u8]) -> io::Result<()>
    ensures { OnOk result (TakesAt F.stream_position F.stream_bytes F.remaining offset file.old file.new piece.new) }
{
    move_to(file, offset)?;
    file.read_exact(piece)?;
    Ok(())
}

/// Moves to an offset, fills a piece from there on, and says where its last line feed stands. A file that has fewer bytes is
/// an error.
#[tactic(auto, using(crate::proofs::LineLaws::last_end_within))]
fn last_end_at<F: Read + Seek>(
    file: &mut F,
    offset: u64,
    piece: &mut [u8],
) -> io::Result<Option<usize>>
    ensures taken { OnOk result (TakesAt F.stream_position F.stream_bytes F.remaining offset file.old file.new piece.new) }
    ensures end { IfOk result (IsLastEnd piece.new) }
    ensures within { IfOk result (λ found. IfSome found (λ number. number < length piece.new)) }
{
    take_piece(file, offset, piece)?;
    Ok(last_end(piece))
}

/// Where the line that ends right before an offset begins: behind the line feed of the line before it, or at 0. It is read
/// backwards, in large pieces; before the first byte nothing is read.
pub fn line_before<F: Read + Seek>(file: &mut F, offset: u64) -> io::Result<u64>
    ensures found { IfOk result (FoundBack F.stream_position F.stream_bytes F.remaining offset file.old file.new) }
    ensures within { IfOk result (λ start. start ≤ offset) }
    ensures err { OnErr result (1 < offset) }
{
    let mut end = offset.saturating_sub(1);
    let mut chunk = [0u8; CHUNK];
    while end > 0 {
        let length = end.min(CHUNK as u64);
        let start = end - length;
        if let Some(last) = last_end_at(file, start, &mut chunk[..length as usize])? {
            return Ok(start + last as u64 + 1);
        }
        end = start;
    }
    Ok(0)
}

/// The error of a stream that goes on for more turns than a loop may have.
pub(crate) fn too_long() -> io::Error {
    io::Error::from(ErrorKind::FileTooLarge)
}
