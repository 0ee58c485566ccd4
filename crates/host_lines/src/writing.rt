//! Lines that are written.

ghost use Rattle.std.specs.Prelude.{◌≡◌, ◌≤◌, ◌++◌, ◌∷◌, [], length, take, IfOk, OnOk, OnErr};
ghost use Rattle.std.specs.Io.KnownBytes.{Appends, Keeps};
ghost use Rattle.host_lines.specs.Lines.{PutFront, WritesAt, WritesFrontAt, end_before, record_text};

use crate::reading::{MOST_TURNS, move_to, too_long};
use std::io;
use std::io::{ErrorKind, Seek, Write};

/// Writes the first bytes and answers how many: at least one of bytes that are not none, but 0 where a signal came first.
fn put_some<W: Write>(writer: &mut W, bytes: &[u8]) -> io::Result<usize>
    ensures fits { IfOk result (λ n. n ≤ length bytes.now) }
    ensures ok { IfOk result (λ n. Appends (W.contents writer.old) (W.contents writer.new) (take n bytes.now)) }
    ensures err { OnErr result (Keeps (W.contents writer.old) (W.contents writer.new)) }
{
    match writer.write(bytes) {
        Ok(0) if !bytes.is_empty() => Err(io::Error::from(ErrorKind::WriteZero)),
        Err(error) if error.kind() == ErrorKind::Interrupted => Ok(0),
        answer => answer,
    }
}

/// Writes all bytes. After an error a front of them went out.
pub(crate) fn put_all<W: Write>(writer: &mut W, bytes: &[u8]) -> io::Result<()>
    ensures ok { OnOk result (Appends (W.contents writer.old) (W.contents writer.new) bytes.now) }
    ensures err { OnErr result (PutFront (W.contents writer.old) (W.contents writer.new) bytes.now) }
{
    let mut done = 0;
    for _ in 0..MOST_TURNS {
        if done == bytes.len() {
            return Ok(());
        }
        done += put_some(writer, &bytes[done..])?;
    }
    Err(too_long())
}

/// Writes a text and a line feed. After an error a front of them went out.
pub fn put_line<W: Write>(writer: &mut W, bytes: &[u8]) -> io::Result<()>
    ensures ok { OnOk result (Appends (W.contents writer.old) (W.contents writer.new) (bytes.now ++ 10 ∷ [])) }
    ensures err { OnErr result (PutFront (W.contents writer.old) (W.contents writer.new) (bytes.now ++ 10 ∷ [])) }
{
    put_all(writer, bytes)?;
    put_all(writer, b"\n")
}

/// What is written before a record, where the line before lacks its line feed or has it.
fn end_before(lacks_end: bool) -> &'static [u8]
    ensures { result.now ≡ end_before lacks_end }
{
    if lacks_end { b"\n" } else { b"" }
}

/// Writes a text and a line feed, behind another line feed where the line before lacks its own. After an error a front of
/// that went out.
pub(crate) fn put_record<W: Write>(writer: &mut W, lacks_end: bool, bytes: &[u8]) -> io::Result<()>
    ensures ok { OnOk result (Appends (W.contents writer.old) (W.contents writer.new) (record_text lacks_end bytes.now)) }
    ensures err { OnErr result (PutFront (W.contents writer.old) (W.contents writer.new) (record_text lacks_end bytes.now)) }
{
    put_all(writer, end_before(lacks_end))?;
    put_line(writer, bytes)
}

/// Moves to an offset, and writes a record there as `put_record` does. After an error a front of it went out there, or nothing
/// did.
pub fn record_at<F: Write + Seek>(
    file: &mut F,
    offset: u64,
    lacks_end: bool,
    bytes: &[u8],
) -> io::Result<()>
    ensures ok { OnOk result (WritesAt F.stream_position F.stream_bytes F.contents offset file.old file.new (record_text lacks_end bytes.now)) }
    ensures err { OnErr result (WritesFrontAt F.stream_position F.stream_bytes F.contents offset file.old file.new (record_text lacks_end bytes.now)) }
{
    move_to(file, offset)?;
    put_record(file, lacks_end, bytes)
}
